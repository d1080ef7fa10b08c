//! A rehearsal.

ghost use Rattle.std.specs.Prelude.{◌≡◌, ◌≢◌, ◌≤◌, length, take, map, IfOk, IfSome};
ghost use Rattle.sv_io.specs.Taken.{TakesAtMost};
ghost use Rattle.sv_io.specs.Causes.{Rose};
ghost use Rattle.script_plans.specs.Inputs.{Outcome, outcome};
ghost use Rattle.script_plans.specs.Plans.{Plan as ThePlan};
ghost use Rattle.script_reading.specs.Readings.{plan_seen};
ghost use Rattle.script_plans.specs.Sound.{IsSound};
ghost use Rattle.race_records.specs.Merged.{book_seen};
ghost use Rattle.race_settling.specs.Races.{IsOfPlan};
ghost use Rattle.race_settling.specs.Settled.{Performs};
ghost use Rattle.server_run.specs.Rehearsals.{most, PerformsInput, Rehearses, IsOfRehearsal};
ghost use Rattle.server_run.specs.Rehearsals.{IsListed};

use actor_scripts::Actor;
use bay_races::race_over;
use object_model::Model;
use race_settling::{cast_scripts, settle};
use record_outcome::limits::MOST_OCTETS;
use record_outcome::status::{Judged, Status};
use script_plans::StepLine;
use script_reading::{MOST_SCRIPTS, Plan, read_rehearsal};
use std::alloc::{AllocError, Global};
use std::sync::Wait;
use std::thread::Threads;
use sv_io::{Failed, Gate, OpenGate, Sink, Source, Unread, read_whole};

/// One octet more than an input may have.
const MOST: usize = MOST_OCTETS + 1;

/// Lets the scripts of a plan race whose actors are cast.
fn play_cast<R: Threads + Wait + Sync, G: Gate>(
    rt: &R,
    alloc: Global,
    model: &Model,
    text: &[u8],
    book: &[Vec<StepLine>],
    actors: Vec<Actor<G>>,
) -> Judged<Vec<u8>>
    requires plan { (p : ThePlan) × IsOfPlan p model.now text.now (book_seen book.now)
        (map (λ a. a.script) actors.items) }
    ensures { (p : ThePlan) → IsOfPlan p model.now text.now (book_seen book.now)
        (map (λ a. a.script) actors.items) → IfOk result (Performs p) }
{
    let raced = race_over(rt, alloc, model, actors)?;
    settle(alloc, model, text, book, raced)
}

/// Lets the scripts of a plan race: the record that they made with its answers, or the status where a turn met a full queue.
fn perform<R: Threads + Wait + Sync, G: Gate>(
    rt: &R,
    alloc: Global,
    plan: Plan,
    gates: Vec<G>,
) -> Judged<Vec<u8>>
    requires sound { IsSound (plan_seen plan) }
    requires gates { length gates.items ≡ 16 }
    ensures { IfOk result (Performs (plan_seen plan)) }
{
    let Plan {
        model,
        text,
        slots,
        count: _,
        processes: _,
    } = plan;
    match cast_scripts(alloc, slots, gates) {
        Ok((actors, book)) => play_cast(rt, alloc, &model, &text, &book, actors),
        Err(error) => Err(error),
    }
}

/// Reads a plan whole, and runs it.
fn perform_input<R: Threads + Wait + Sync, G: Gate>(
    rt: &R,
    alloc: Global,
    gates: Vec<G>,
    octets: Vec<u8>,
) -> Judged<Vec<u8>>
    requires octets { length octets.items ≤ 67108865 }
    requires gates { length gates.items ≡ 16 }
    ensures { IfOk result (PerformsInput (outcome octets.items)) }
{
    let read = read_rehearsal(alloc, &octets)?;
    match read {
        Ok(plan) => {
            drop(octets);
            perform(rt, alloc, plan, gates)
        }
        Err(status) => Ok(Err(status)),
    }
}

/// Writes what a race came to, if it came to a record with its answers: the status.
fn deliver<K: Sink>(performed: Judged<Vec<u8>>, sink: &mut K) -> Status
    requires { (o : Outcome) × IfOk performed (PerformsInput o) }
    ensures rehearses { (o : Outcome) → IfOk performed (PerformsInput o)
        → Rehearses o result (K.taken sink.old) (K.taken sink.new) }
    ensures listed { IsListed result }
    ensures write { result ≡ Status.WriteFault → Rose (K.faults sink.old) (K.faults sink.new) }
    ensures later { K.faults sink.old ≤ K.faults sink.new }
{
    match performed {
        Ok(Ok(out)) => match sink.write_all(&out) {
            Ok(()) => Status::Ok,
            Err(Failed) => Status::WriteFault,
        },
        Ok(Err(status)) => status,
        Err(AllocError) => Status::Memory,
    }
}

/// Reads a configuration and one script per actor, and checks every script before any thread starts. Then each actor runs its
/// script in a thread of its own against one history, one turn a line, and passes its gate before each turn: the i-th gate is
/// that of the i-th script. Where all turns went, the record that they made is written, and after it its answers.
pub fn rehearse_gated<R: Threads + Wait + Sync, S: Source, K: Sink, G: Gate>(
    rt: &R,
    alloc: Global,
    gates: Vec<G>,
    source: &mut S,
    sink: &mut K,
) -> Status
    requires gates { length gates.items ≡ 16 }

    // Every status and what the sink took, by what the input comes to.
    ensures rehearses { IfSome (S.left source.old) (λ b. Rehearses (outcome (take most b)) result
        (K.taken sink.old) (K.taken sink.new)) }

    // What the octets are by the grammar.
    ensures plan { IfSome (S.left source.old) (λ b. IsOfRehearsal b result (K.taken sink.old)
        (K.taken sink.new)) }

    // At most one octet more is taken from the source than an input may have.
    ensures taken { TakesAtMost 67108865 (S.left source.old) (S.left source.new) }

    // Faults have their causes.
    ensures words { result ≢ Status.Words }
    ensures read { result ≡ Status.ReadFault → Rose (S.faults source.old) (S.faults source.new) }
    ensures write { result ≡ Status.WriteFault → Rose (K.faults sink.old) (K.faults sink.new) }
    ensures later { (S.faults source.old ≤ S.faults source.new)
        × (K.faults sink.old ≤ K.faults sink.new) }
{
    match read_whole(alloc, source, MOST) {
        Ok(octets) => deliver(perform_input(rt, alloc, gates, octets), sink),
        Err(Unread::Read) => Status::ReadFault,
        Err(Unread::Memory) => Status::Memory,
    }
}

/// This many open gates.
fn open_gates(alloc: Global) -> Result<Vec<OpenGate>, AllocError>
    ensures { IfOk result (λ v. length v.items ≡ 16) }
{
    let mut gates = Vec::new(alloc);
    for _ in 0..MOST_SCRIPTS {
        gates.push(OpenGate)?;
    }
    Ok(gates)
}

/// A rehearsal whose actors wait for no gate.
pub fn rehearse<R: Threads + Wait + Sync, S: Source, K: Sink>(
    rt: &R,
    alloc: Global,
    source: &mut S,
    sink: &mut K,
) -> Status
    // Every status and what the sink took, by what the input comes to.
    ensures rehearses { IfSome (S.left source.old) (λ b. Rehearses (outcome (take most b)) result
        (K.taken sink.old) (K.taken sink.new)) }

    // What the octets are by the grammar.
    ensures plan { IfSome (S.left source.old) (λ b. IsOfRehearsal b result (K.taken sink.old)
        (K.taken sink.new)) }

    // At most one octet more is taken from the source than an input may have.
    ensures taken { TakesAtMost 67108865 (S.left source.old) (S.left source.new) }

    // Faults have their causes.
    ensures words { result ≢ Status.Words }
    ensures read { result ≡ Status.ReadFault → Rose (S.faults source.old) (S.faults source.new) }
    ensures write { result ≡ Status.WriteFault → Rose (K.faults sink.old) (K.faults sink.new) }
    ensures later { (S.faults source.old ≤ S.faults source.new)
        × (K.faults sink.old ≤ K.faults sink.new) }
{
    match open_gates(alloc) {
        Ok(gates) => rehearse_gated(rt, alloc, gates, source, sink),
        Err(AllocError) => Status::Memory,
    }
}
