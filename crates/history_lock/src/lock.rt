//! A state machine behind a ticket lock, one step of the lock after another.

ghost use Rattle.std.specs.Prelude.{◌≡◌, ◌+◌, ◌%◌, ◌^◌, ◌<◌, ◌≤◌, List, ◌∷◌, [], length, Some, IfOk, ℕ};
ghost use Rattle.std.specs.Prelude.{true};
ghost use Rattle.sv_base.specs.declared.config.Config.{Config};
ghost use Rattle.object_model.specs.Fits.{fits as fits_in};
ghost use Rattle.bay_model.specs.Answers.{History};
ghost use Rattle.bay_histories.specs.Turns.{KeepsLean, KeepsProcess};
ghost use Rattle.bay_histories.specs.Histories.{IsEarlier, by, turn_of, IsLegal};
ghost use Rattle.history_lock.specs.Views.{mine, busy};
ghost use Rattle.history_lock.specs.Rule.{whole};
ghost use Rattle.history_lock.specs.Plays.{Got, drawn, extended, resting, kept_part, cut_part};
ghost use Rattle.history_lock.specs.Plays.{joined, settled, Agree, Beside};
ghost use Rattle.history_lock.specs.Seats.{Took, config_or, step_result};
ghost use Rattle.history_lock.specs.declared.view.Phase.TheVariants.{Idle, Drawn, Busy, Added};

use crate::rule::{
    Announced, Append, Both, Compare, Count, Cut, Draw, Hear, Law, Look, PassOn, Portion, Ring,
    Witness,
};
use crate::view::{About, View};
use atomic_table::{Refused, Table};
use bay_histories::{StateMachine, StepFault};
use bay_model::{Answer, Step};
use std::alloc::{AllocError, Global};
use std::marker::Brand;
use std::sync::Wait;
use sv_base::{ActorNo, Moment};

pub(crate) type Seat<M> = atomic_table::Seat<Option<M>, View>;

/// The bell of a ticket: the word on which its thread parks, and which counts up when the ticket is served. Sixteen of them stand
/// after the ticket, the served ticket and the length, so that a turn's end wakes few threads but the next one.
fn bell_of(ticket: u64) -> usize
    ensures { result ≡ 3 + ticket % 16 }
{
    3 + (ticket % 16) as usize
}

/// A state machine behind a ticket lock.
#[derive(Drop)]
pub(crate) struct Lock<M: StateMachine> {
    table: Table<Option<M>, View, About, Law<M>, Global>,
    ghost sized: { (table.shared.table_id.words ≡ 19) × (table.shared.table_id.slots ≡ 1) },
}

impl<M: StateMachine> Lock<M> {
    pub(crate) fn new(
        alloc: Global,
        machine: M,
        about: &About,
    ) -> Result<(Lock<M>, Seat<M>), AllocError>
        requires { M.stands machine about.now.model [] }
        ensures { IfOk result (λ r. (r.0.table.shared.key ≡ about.now)
            × (r.1.table_id ≡ r.0.table.shared.table_id)
            × (r.1.me ≡ (whole about.now.actors about.now.model, []))) }
    {
        let mut slots = match Vec::with_capacity(alloc, 1) {
            Ok(slots) => slots,
            Err(error) => {
                drop(machine);
                return Err(error);
            }
        };
        slots.push_reserved(Some(machine));
        match Table::new(alloc, &[0; 19], slots, about) {
            Ok((table, seat)) => Ok((Lock { table }, seat)),
            Err(Refused { slots }) => {
                drop(slots);
                Err(AllocError)
            }
        }
    }

    /// A new seat gets the last numbers of the first range, and turns.
    fn cut<N: Portion>(&self, seat: &mut Seat<M>, _numbers: u64, _turns: u64) -> Seat<M>
        requires table { seat.old.table_id ≡ self.now.table.shared.table_id }
        requires numbers { (low : ℕ) × (count : ℕ) × (others : List (ℕ × ℕ))
            × (seat.old.me.0.ranges ≡ (low, count) ∷ others) × (N.numbers ≤ count) }
        requires turns { N.turns ≤ seat.old.me.0.left }
        ensures table { (seat.new.table_id ≡ seat.old.table_id)
            × (result.table_id ≡ seat.old.table_id) }
        ensures kept { seat.new.me ≡ (kept_part N.numbers N.turns seat.old.me.0, seat.old.me.1) }
        ensures new { result.me ≡ (cut_part N.numbers N.turns seat.old.me.0, []) }
    {
        self.table.shared.split_seat::<Cut<N>>(seat)
    }

    pub(crate) fn split(&self, seat: &mut Seat<M>, numbers: u64, turns: u64) -> Seat<M>
        requires table { seat.old.table_id ≡ self.now.table.shared.table_id }
        requires numbers { (low : ℕ) × (count : ℕ) × (others : List (ℕ × ℕ))
            × (seat.old.me.0.ranges ≡ (low, count) ∷ others) × (numbers ≤ count) }
        requires turns { turns ≤ seat.old.me.0.left }
        ensures table { (seat.new.table_id ≡ seat.old.table_id)
            × (result.table_id ≡ seat.old.table_id) }
        ensures kept { seat.new.me ≡ (kept_part numbers turns seat.old.me.0, seat.old.me.1) }
        ensures new { result.me ≡ (cut_part numbers turns seat.old.me.0, []) }
    {
        self.cut::<Brand>(seat, numbers, turns)
    }

    /// Takes in another seat, and compares what the two had seen.
    pub(crate) fn join(&self, seat: &mut Seat<M>, other: Seat<M>)
        requires table { (seat.old.table_id ≡ self.now.table.shared.table_id)
            × (other.table_id ≡ self.now.table.shared.table_id) }
        requires idle { (seat.old.me.0.phase ≡ Idle) × (seat.old.me.1 ≡ [])
            × (seat.old.me.0.aside ≡ []) }
        requires other { (other.me.0.phase ≡ Idle) × (other.me.1 ≡ []) }
        ensures table { seat.new.table_id ≡ seat.old.table_id }
        ensures seat { seat.new.me ≡ (settled (joined seat.old.me.0 other.me.0), []) }
        ensures agree { Agree (joined seat.old.me.0 other.me.0) seat.new.me.0.seen }
        ensures room { seat.old.me.0.left + other.me.0.left ≤ 2 ^ 62 }
    {
        self.table.shared.join_seat::<Both>(seat, other);
        self.table.shared.load::<Compare>(seat, 0);
    }

    /// Holds what a seat has seen beside what another has, and leaves both as they are.
    pub(crate) fn hear(&self, seat: &mut Seat<M>, other: &mut Seat<M>)
        requires table { (seat.old.table_id ≡ self.now.table.shared.table_id)
            × (other.old.table_id ≡ self.now.table.shared.table_id) }
        requires idle { seat.old.me.0.phase ≡ Idle }
        requires alone { (seat.old.me.0.aside ≡ []) × (seat.old.me.0.told ≡ []) }
        ensures table { (seat.new.table_id ≡ seat.old.table_id)
            × (other.new.table_id ≡ other.old.table_id) }
        ensures same { (seat.new.me ≡ seat.old.me) × (other.new.me ≡ other.old.me) }
        ensures beside { Beside seat.old.me.0 other.old.me.0.seen }
    {
        let witness = self.table.shared.split_seat::<Witness>(other);
        self.table.shared.join_seat::<Both>(seat, witness);
        self.table.shared.load::<Hear>(seat, 0);
    }

    /// The length of the history, which a seat with all numbers has seen whole.
    pub(crate) fn close(self, seat: Seat<M>) -> u64
        requires table { seat.table_id ≡ self.table.shared.table_id }
        ensures { (log : History) × (result ≡ length log) × IsEarlier seat.me.0.seen log
            × (((k : ℕ) → k < self.table.shared.key.actors → 0 < mine k seat.me.0)
            → seat.me.0.seen ≡ log)
            × ((k : ℕ) → self.table.shared.key.actors ≤ k → by k log ≡ [])
            × IsLegal M.rules self.table.shared.key.model log }
    {
        let Lock { table } = self;
        let mut closed = table.close_with(seat);
        let count = closed.word(2);
        drop(closed.take(0));
        closed.free();
        count
    }

    /// Draws the next ticket.
    fn draw(&self, seat: &mut Seat<M>) -> u64
        requires table { seat.old.table_id ≡ self.now.table.shared.table_id }
        requires idle { seat.old.me.0.phase ≡ Idle }
        requires left { 0 < seat.old.me.0.left }
        ensures table { seat.new.table_id ≡ seat.old.table_id }
        ensures seat { seat.new.me ≡ (drawn seat.old.me.0 result, seat.old.me.1) }
    {
        self.table.shared.fetch_add::<Draw>(seat, 0, 1)
    }

    /// Waits until the ticket is served, and takes the machine. The bell is read before the served ticket: where it rings after that
    /// look, the thread does not park.
    fn wait_turn<R: Wait>(&self, rt: &R, seat: &mut Seat<M>, ticket: u64)
        requires table { seat.old.table_id ≡ self.now.table.shared.table_id }
        requires drawn { seat.old.me.0.phase ≡ Drawn ticket }
        ensures table { seat.new.table_id ≡ seat.old.table_id }
        ensures got { Got M.stands seat.old.me ticket seat.new.me }
    {
        let bell = bell_of(ticket);
        for _ in rt.forever() {
            let rung = self.table.shared.peek(bell);
            let serving = self.table.shared.load::<Look<M>>(seat, 1);
            if serving == ticket {
                return;
            }
            self.table.shared.park(rt, bell, (rung % (1 << 32)) as u32);
        }
        unreachable!()
    }

    /// Adds a step to the history, and gives its place.
    fn append<E: Announced>(
        &self,
        seat: &mut Seat<M>,
        _moment: Moment,
        _actor: ActorNo,
        _step: &Step,
    ) -> u64
        requires table { seat.old.table_id ≡ self.now.table.shared.table_id }
        requires turn { (t : ℕ) × (seat.old.me.0.phase ≡ Busy t) }
        requires mine { 0 < mine E.turn.actor seat.old.me.0 }
        requires legal { (config : Config) × (seat.old.me.0.config ≡ Some config)
            × IsLegal M.rules config (E.turn ∷ seat.old.me.0.seen) }
        ensures table { seat.new.table_id ≡ seat.old.table_id }
        ensures seat { (t : ℕ) → seat.old.me.0.phase ≡ Busy t
            → seat.new.me ≡ (extended seat.old.me.0 t E.turn, seat.old.me.1) }
        ensures place { result ≡ length seat.old.me.0.seen }
    {
        self.table.shared.fetch_add::<Append<E>>(seat, 2, 1)
    }

    /// Gives the machine back, serves the next ticket, and rings its bell.
    fn pass_on(&self, seat: &mut Seat<M>)
        requires table { seat.old.table_id ≡ self.now.table.shared.table_id }
        requires busy { busy seat.old.me.0 ≡ 1 }
        requires machine { (machine : M) × (config : Config)
            × (seat.old.me.1 ≡ (0, Some machine) ∷ []) × (seat.old.me.0.config ≡ Some config)
            × M.stands machine config seat.old.me.0.seen }
        ensures table { seat.new.table_id ≡ seat.old.table_id }
        ensures seat { seat.new.me ≡ (resting seat.old.me.0, []) }
    {
        let served = self.table.shared.fetch_add::<PassOn>(seat, 1, 1);
        let bell = bell_of(served.wrapping_add(1));
        self.table.shared.fetch_add::<Ring>(seat, bell, 1);
        self.table.shared.wake_all(bell);
    }

    /// How long the history is, for a seat that has the machine.
    fn count(&self, seat: &mut Seat<M>) -> u64
        requires table { seat.old.table_id ≡ self.now.table.shared.table_id }
        requires busy { busy seat.old.me.0 ≡ 1 }
        ensures table { seat.new.table_id ≡ seat.old.table_id }
        ensures seat { seat.new.me ≡ seat.old.me }
        ensures count { result ≡ length seat.old.me.0.seen }
    {
        self.table.shared.load::<Count>(seat, 2)
    }

    /// One turn of a seat: a ticket, the machine, a step, its place in the history where it was accepted, and the machine back.
    /// A refused step comes with the length of the history.
    pub(crate) fn take_turn<R: Wait>(
        &self,
        rt: &R,
        alloc: Global,
        seat: &mut Seat<M>,
        moment: Moment,
        actor: ActorNo,
        step: &Step,
    ) -> Result<(Answer, u64), (StepFault, u64)>
        requires table { seat.old.table_id ≡ self.now.table.shared.table_id }
        requires idle { (seat.old.me.0.phase ≡ Idle) × (seat.old.me.1 ≡ []) }
        requires left { 0 < seat.old.me.0.left }
        requires mine { 0 < mine actor.0 seat.old.me.0 }
        requires config { seat.old.me.0.config ≡ Some (config_or seat.old.me.0.config) }
        requires fits { fits_in (config_or seat.old.me.0.config) step.now ≡ true }
        ensures table { seat.new.table_id ≡ seat.old.table_id }
        ensures lean { KeepsLean step.now (step_result result) }
        ensures process { KeepsProcess step.now (step_result result) }
        ensures turn { Took M.rules (config_or seat.old.me.0.config) seat.old.me
            (turn_of moment actor.0 step.now) result seat.new.me }
    {
        let ticket = self.draw(seat);
        self.wait_turn(rt, seat, ticket);
        let shared = &self.table.shared;
        let mut machine = shared.exchange(seat, 0, None).unwrap();
        let result = machine.step(alloc, moment, actor, step);
        drop(shared.exchange(seat, 0, Some(machine)));
        match result {
            Ok(answer) => {
                let place = self.append::<Brand>(seat, moment, actor, step);
                self.pass_on(seat);
                Ok((answer, place))
            }
            Err(fault) => {
                let count = self.count(seat);
                self.pass_on(seat);
                Err((fault, count))
            }
        }
    }
}
