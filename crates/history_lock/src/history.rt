//! A state machine behind a lock, the history of its accepted steps, and the right to make them.

ghost use Rattle.std.specs.Prelude.{◌≡◌, ◌-◌, ◌+◌, ◌<◌, ◌≤◌, List, ◌∷◌, [], ◌++◌, length, IfOk, ℕ};
ghost use Rattle.std.specs.Prelude.{cond, nat_lt, true};
ghost use Rattle.object_model.specs.Fits.{fits as fits_in};
ghost use Rattle.bay_model.specs.Answers.{History as TheHistory};
ghost use Rattle.bay_histories.specs.Histories.{IsEarlier, by, IsLegal, IsShuffle};
ghost use Rattle.history_lock.specs.Rule.{whole};
ghost use Rattle.history_lock.specs.Passes.{Known, IsSamePass, Joined, Became, AreOfOne, first_of};
ghost use Rattle.history_lock.specs.Passes.{kept_of, new_of};
ghost use Rattle.history_lock.specs.Passes.{OwnGrew, ToldGrew, PlacedGrew, Turned, IsLeanTurn};
ghost use Rattle.history_lock.specs.Passes.{IsProcessTurn};

use crate::fault::TurnFault;
use crate::lock::{Lock, Seat};
use crate::view::About;
use bay_histories::StateMachine;
use bay_model::{Answer, Step};
use object_model::Model;
use std::alloc::{AllocError, Global};
use std::sync::Wait;
use sv_base::{ActorNo, Moment};

/// A state machine behind a lock, as a bay, and the history of its accepted steps. Threads share it by `&`, each with a pass of its
/// own. Contracts see its configuration and how many actors it has.
#[derive(Drop)]
pub struct History<M: StateMachine> {
    lock: Lock<M>,
    about: About,
    alloc: Global,
}

impl<M: StateMachine> std::marker::Model for History<M> {
    ghost use Rattle.std.specs.Prelude.{◌≡◌};
    ghost use Rattle.std.specs.Coded.{codes};
    ghost use Rattle.sv_base.specs.Tree.{row_code};
    ghost use Rattle.sv_base.specs.Types.{fields_code};
    ghost use Rattle.history_lock.specs.Passes.{Site};

    ghost Value = { Site };

    ghost coded = { Prim.hlevel (codes, row_code, fields_code) };

    ghost view = { λ h. record {
      table = h.lock.table.shared.table_id;
      actors = h.about.actors;
      config = h.about.model;
    } };

    ghost invariant = { λ h. h.lock.table.shared.key ≡ h.about };
}

/// The right to make the steps of some actors, and n turns. Contracts see its numbers, its turns left, and the history as
/// far as it has seen it, the newest step first.
#[derive(Drop)]
pub struct Pass<M: StateMachine> {
    seat: Seat<M>,
    first: u32,
    count: u32,
    left: u64,
    seen: u64,
}

impl<M: StateMachine> std::marker::Model for Pass<M> {
    ghost use Rattle.std.specs.Prelude.{◌≡◌, ◌+◌, ◌<◌, ◌^◌, length};
    ghost use Rattle.std.specs.Coded.{codes};
    ghost use Rattle.sv_base.specs.Tree.{row_code};
    ghost use Rattle.sv_base.specs.Types.{fields_code};
    ghost use Rattle.history_lock.specs.Seats.{config_or, others_of, at_rest, known};
    ghost use Rattle.history_lock.specs.Passes.{Known};

    ghost Value = { Known };

    ghost coded = { Prim.hlevel (codes, row_code, fields_code) };

    ghost view = { λ p. known p.seat.table_id p.seat.me p.first p.count p.left };

    ghost invariant = { λ p. (0 < p.count) × (p.first + p.count < 2 ^ 32)
        × (p.seen ≡ length p.seat.me.0.seen)
        × (p.seat.me ≡ at_rest (config_or p.seat.me.0.config) p.first p.count
        (others_of p.seat.me.0.ranges) p.left p.seat.me.0.seen) };
}

impl<M: StateMachine> Pass<M> {
    /// The lowest of its numbers, which is its own.
    pub fn actor(&self) -> ActorNo
        ensures { result.0 ≡ self.now.first }
    {
        ActorNo(self.first)
    }

    /// How many steps of the history it has seen.
    pub fn seen(&self) -> u64
        ensures { result ≡ length self.now.seen }
    {
        self.seen
    }

    /// Its turns left, 0 to 2^62.
    pub fn left(&self) -> u64
        ensures { result ≡ self.now.left }
    {
        self.left
    }
}

impl<M: StateMachine> History<M> {
    /// A machine that has made no step, behind a lock. The pass has the numbers of all actors, from 0, and 2^62 turns. Fails for
    /// out of memory alone; the lock takes a copy of the machine's model.
    pub fn new(alloc: Global, machine: M, actors: u32) -> Result<(History<M>, Pass<M>), AllocError>
        requires actors { 0 < actors }
        requires machine { M.stands machine (M.config machine) [] }
        ensures history { IfOk result (λ r. (r.0.actors ≡ actors)
            × (r.0.config ≡ M.config machine)) }
        ensures pass { IfOk result (λ r. r.1 ≡ first_of r.0) }
    {
        let about = match about_of(alloc, &machine, actors) {
            Ok(about) => about,
            Err(error) => {
                drop(machine);
                return Err(error);
            }
        };
        match Lock::new(alloc, machine, &about) {
            Ok((lock, seat)) => Ok(begun(alloc, lock, seat, about, actors)),
            Err(error) => {
                drop(about);
                Err(error)
            }
        }
    }

    /// Hands the last `numbers` of the pass's range, and n turns, to a new pass that has seen the same. The pass keeps
    /// one number at least. It takes no memory.
    pub fn split(&self, pass: &mut Pass<M>, numbers: u32, turns: u64) -> Pass<M>
        requires pass { pass.old.table ≡ self.now.table }
        requires numbers { (0 < numbers) × (numbers < pass.old.count) }
        requires turns { turns ≤ pass.old.left }
        ensures kept { pass.new ≡ kept_of pass.old numbers turns }
        ensures new { result ≡ new_of pass.old numbers turns }
    {
        let seat = self.lock.split(&mut pass.seat, u64::from(numbers), turns);
        pass.count -= numbers;
        pass.left -= turns;
        Pass {
            seat,
            first: pass.first + pass.count,
            count: numbers,
            left: turns,
            seen: pass.seen,
        }
    }

    /// A model equal to its machine's. It makes no turn and takes no memory.
    pub fn model(&self) -> &Model
        ensures { result.now ≡ self.now.config }
    {
        &self.about.model
    }

    /// Makes one turn with a step that fits the model, as the pass's lowest actor: waits until the turns before it are made, and
    /// gives the machine's answer and the step's place in the history, counted from 0.
    ///
    /// `Ended` is answered exactly where the pass has no turn left, and then nothing is done. `Step` is the machine's refusal: it adds
    /// nothing to the history. Every turn but an ended one takes one of the pass's turns.
    pub fn turn<R: Wait>(
        &self,
        rt: &R,
        pass: &mut Pass<M>,
        moment: Moment,
        step: &Step,
    ) -> Result<(Answer, u64), TurnFault>
        requires pass { (pass.old.table ≡ self.now.table) × (pass.old.config ≡ self.now.config) }
        requires fits { fits_in self.now.config step.now ≡ true }
        ensures same { IsSamePass pass.old pass.new }
        ensures own { OwnGrew pass.old moment step.now result pass.new }
        ensures told { ToldGrew M.rules pass.old result pass.new }
        ensures placed { PlacedGrew pass.old result pass.new }
        ensures lean { IsLeanTurn step.now result }
        ensures process { IsProcessTurn step.now result }
        ensures turn { Turned M.rules pass.old moment step.now result pass.new }
    {
        if pass.left == 0 {
            return Err(TurnFault::Ended);
        }
        let actor = ActorNo(pass.first);
        match self
            .lock
            .take_turn(rt, self.alloc, &mut pass.seat, moment, actor, step)
        {
            Ok((answer, place)) => {
                pass.left -= 1;
                pass.seen = place + 1;
                Ok((answer, place))
            }
            Err((fault, seen)) => {
                pass.left -= 1;
                pass.seen = seen;
                Err(TurnFault::Step(fault))
            }
        }
    }

    /// Takes in another pass of this history: the first has from now on the numbers and the turns of both, and has seen the longer
    /// of what they had seen. It takes no memory.
    pub fn join(&self, pass: &mut Pass<M>, other: Pass<M>)
        requires { (pass.old.table ≡ self.now.table) × (other.table ≡ self.now.table) }
        ensures { Joined pass.old other pass.new }
    {
        let Pass {
            seat,
            first: _,
            count: _,
            left,
            seen,
        } = other;
        self.lock.join(&mut pass.seat, seat);
        pass.left += left;
        pass.seen = larger(pass.seen, seen);
    }

    /// Compares two passes: one of them has seen what the other has, and then steps of others alone, whatever turns both have made
    /// since they were split. It changes neither, makes no turn and takes no memory: a proof calls it for what it says.
    pub fn compare(&self, pass: &mut Pass<M>, other: &mut Pass<M>)
        requires { (pass.old.table ≡ self.now.table) × (other.old.table ≡ self.now.table) }
        ensures same { (pass.new ≡ pass.old) × (other.new ≡ other.old) }
        ensures seen { AreOfOne pass.old other.old }
    {
        self.lock.hear(&mut pass.seat, &mut other.seat);
        self.lock.hear(&mut other.seat, &mut pass.seat);
    }

    /// How many steps were accepted. Where passes of all numbers became this one, it has seen them all.
    pub fn close(self, pass: Pass<M>) -> u64
        requires { pass.table ≡ self.table }
        ensures seen { (log : TheHistory) × (result ≡ length log) × IsEarlier pass.seen log
            × IsLegal M.rules self.config log }
        ensures whole { (parts : ℕ → Known) → ((k : ℕ) → k < self.actors
            → Became M.rules k (parts k) pass)
            → (result ≡ length pass.seen)
            × IsShuffle self.actors (λ k. by k (parts k).seen) pass.seen }
    {
        let History {
            lock,
            about,
            alloc: _,
        } = self;
        drop(about);
        let Pass {
            seat,
            first: _,
            count: _,
            left: _,
            seen: _,
        } = pass;
        lock.close(seat)
    }
}

/// What the lock of a machine is told.
fn about_of<M: StateMachine>(alloc: Global, machine: &M, actors: u32) -> Result<About, AllocError>
    ensures { IfOk result (λ a. (a.actors ≡ actors) × (a.model ≡ M.config machine.now)) }
{
    let model = machine.model().copy(alloc)?;
    Ok(About {
        actors: u64::from(actors),
        model,
    })
}

/// A history of which no step was made, and the pass of all actors.
fn begun<M: StateMachine>(
    alloc: Global,
    lock: Lock<M>,
    seat: Seat<M>,
    about: About,
    actors: u32,
) -> (History<M>, Pass<M>)
    requires actors { (0 < actors) × (about.actors ≡ actors) }
    requires key { lock.table.shared.key ≡ about }
    requires seat { (seat.table_id ≡ lock.table.shared.table_id)
        × (seat.me ≡ (whole actors about.model, [])) }
    ensures history { (result.0.actors ≡ actors) × (result.0.config ≡ about.model) }
    ensures pass { result.1 ≡ first_of result.0 }
{
    let history = History { lock, about, alloc };
    let pass = Pass {
        seat,
        first: 0,
        count: actors,
        left: 1 << 62,
        seen: 0,
    };
    (history, pass)
}

/// The larger of two numbers.
fn larger(a: u64, b: u64) -> u64
    ensures { result ≡ cond (nat_lt a b) b a }
{
    if a < b { b } else { a }
}
