//! The rule of the lock, and its steps. No value of these types is made.

use crate::view::{About, View};
use atomic_table::{Join, Play, Split, TableRule};
use bay_histories::StateMachine;
use std::marker::{Brand, PhantomData};

/// What always holds of the words, of the machine in its slot, and of what the seats know.
pub struct Law<M: StateMachine> {
    of: PhantomData<M>,
}

impl<M: StateMachine> TableRule<Option<M>, View, About> for Law<M> {
    ghost use Rattle.history_lock.specs.Rule.{FollowsRule, whole};

    ghost holds = { λ about s. FollowsRule M.rules M.stands about.actors about.model s };

    ghost first = { λ about. whole about.actors about.model };
}

/// A ticket is drawn.
pub struct Draw;

impl<M> Play<Option<M>, View> for Draw {
    ghost use Rattle.history_lock.specs.Plays.{draws};

    ghost then = { draws };
}

/// A look at the ticket that is served.
pub struct Look<M: StateMachine> {
    of: PhantomData<M>,
}

impl<M: StateMachine> Play<Option<M>, View> for Look<M> {
    ghost use Rattle.history_lock.specs.Plays.{looks};

    ghost then = { looks M.stands };
}

/// The step that is added.
pub trait Announced {
    ghost use Rattle.bay_model.specs.Answers.{Turn};

    ghost turn: { Turn };
}

impl Announced for Brand {
    ghost use Rattle.bay_histories.specs.Histories.{nothing};

    ghost turn = { nothing };
}

/// A step is added to the history.
pub struct Append<E: Announced> {
    of: PhantomData<E>,
}

impl<M, E: Announced> Play<Option<M>, View> for Append<E> {
    ghost use Rattle.history_lock.specs.Plays.{appends};

    ghost then = { appends E.turn };
}

/// The machine is given back, and the next ticket is served.
pub struct PassOn;

impl<M> Play<Option<M>, View> for PassOn {
    ghost use Rattle.history_lock.specs.Plays.{passes};

    ghost then = { passes };
}

/// A bell is rung.
pub struct Ring;

impl<M> Play<Option<M>, View> for Ring {
    ghost use Rattle.history_lock.specs.Plays.{rings};

    ghost then = { rings };
}

/// How many numbers and turns a new seat gets.
pub trait Portion {
    ghost use Rattle.std.specs.Prelude.{ℕ};

    ghost numbers: { ℕ };

    ghost turns: { ℕ };
}

impl Portion for Brand {
    ghost numbers = { 0 };

    ghost turns = { 0 };
}

/// A seat is cut in two.
pub struct Cut<N: Portion> {
    of: PhantomData<N>,
}

impl<N: Portion> Split<View> for Cut<N> {
    ghost use Rattle.history_lock.specs.Plays.{kept_part, cut_part};

    ghost left = { λ v. kept_part N.numbers N.turns v };

    ghost right = { λ v. cut_part N.numbers N.turns v };
}

/// A seat takes in another.
pub struct Both;

impl Join<View> for Both {
    ghost use Rattle.history_lock.specs.Rule.{spent};
    ghost use Rattle.history_lock.specs.Plays.{joined};

    ghost both = { λ v w. joined v w };

    ghost spent = { spent };
}

/// After a join a seat compares what it had seen with what the other one had.
pub struct Compare;

impl<M> Play<Option<M>, View> for Compare {
    ghost use Rattle.history_lock.specs.Plays.{compares};

    ghost then = { compares };
}

/// A new seat has seen what the seat has, and knows nothing else.
pub struct Witness;

impl Split<View> for Witness {
    ghost use Rattle.history_lock.specs.Plays.{witness};

    ghost left = { λ v. v };

    ghost right = { λ v. witness v };
}

/// A seat that took in a witness holds what it has seen beside what the witness has.
pub struct Hear;

impl<M> Play<Option<M>, View> for Hear {
    ghost use Rattle.history_lock.specs.Plays.{hears};

    ghost then = { hears };
}

/// A seat that has the machine reads how long the history is.
pub struct Count;

impl<M> Play<Option<M>, View> for Count {
    ghost use Rattle.history_lock.specs.Plays.{counts};

    ghost then = { counts };
}
