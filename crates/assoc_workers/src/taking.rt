//! One take of a side that writes.

ghost use Rattle.std.specs.Prelude.{◌≡◌, ◌≤◌, true, Ok, Err};
ghost use Rattle.object_model.specs.Fits.{is_association};
ghost use Rattle.osi_stack.specs.Lines.{IsLine};
ghost use Rattle.sv_io.specs.Causes.{Rose};
ghost use Rattle.bay_model.specs.declared.step.Step.TheVariants as steps;
ghost use Rattle.assoc_workers.specs.Made.{IsOf, IsRefusedAfter};
ghost use Rattle.assoc_workers.specs.Taking.{TakesOne, IsAnswerWritten, IsRefusedAs};
ghost use Rattle.assoc_workers.specs.Taking.{IsCut};
ghost use Rattle.assoc_workers.specs.Writing.{octets_of as octets_sent};
ghost use Rattle.assoc_workers.specs.Causes.{IsClosed};
ghost use Rattle.std.specs.Io.KnownBytes.{Appends};

use crate::ends::WriteEnd;
use crate::making::make;
use crate::octets::octets_of;
use bay_histories::{StateMachine, StepFault};
use bay_model::{Answer, Output, Step};
use history_lock::{History, Pass, TurnFault};
use object_model::Model;
use osi_stack::Line;
use std::alloc::{AllocError, Global};
use std::sync::Wait;
use sv_base::AssocNo;
use sv_io::{Clock, Failed, Sink};

/// What comes of a take.
#[derive(Clone, Copy)]
pub enum Went {
    /// An output was taken and written.
    Written,
    /// Nothing waited.
    Empty,
    /// The association isn't open.
    Closed,
}

/// Writes what a take was answered, as its octets on the line; or says how the side ends.
fn write_answer<K: Sink>(
    alloc: Global,
    model: &Model,
    line: Line,
    answer: Answer,
    sink: &mut K,
) -> Result<Went, WriteEnd>
    requires line { IsLine line }
    ensures written { IsAnswerWritten model.now line answer result (K.taken sink.old)
        (K.taken sink.new) }
    ensures write { result ≡ Err WriteEnd.WriteFault → Rose (K.faults sink.old) (K.faults sink.new) }
    ensures later { K.faults sink.old ≤ K.faults sink.new }
{
    let output = match &answer {
        Answer::Taken(output) => output,
        Answer::Closed => return Ok(Went::Closed),
        _ => return Ok(Went::Empty),
    };
    let Ok(octets) = octets_of(alloc, model, line, output) else {
        return Err(WriteEnd::Memory);
    };
    match sink.write_all(&octets) {
        Ok(()) => Ok(Went::Written),
        Err(Failed) => Err(WriteEnd::WriteFault),
    }
}

/// How a side ends whose take was refused.
fn refused(fault: TurnFault) -> WriteEnd
    ensures { IsRefusedAs fault result }
{
    match fault {
        TurnFault::Ended => WriteEnd::Ended,
        TurnFault::Step(StepFault::Memory) => WriteEnd::Memory,
        TurnFault::Step(_) => WriteEnd::Foreign,
    }
}

/// Takes once for the association, and writes what is given; or says how the side ends.
pub fn take_one<R: Wait, M: StateMachine, K: Sink, C: Clock>(
    rt: &R,
    alloc: Global,
    history: &History<M>,
    pass: &mut Pass<M>,
    a: AssocNo,
    line: Line,
    sink: &mut K,
    clock: &C,
) -> Result<Went, WriteEnd>
    requires pass { IsOf history.now pass.old }
    requires number { is_association a.0 ≡ true }
    requires line { IsLine line }
    ensures takes { TakesOne M.rules history.now.config a line (C.moment clock.now) result
        pass.old pass.new (K.taken sink.old) (K.taken sink.new) }
    ensures of { IsOf history.now pass.new }
    ensures closed { result ≡ Ok Went.Closed → IsClosed M.rules a pass.new }
    ensures write { result ≡ Err WriteEnd.WriteFault → Rose (K.faults sink.old) (K.faults sink.new) }
    ensures foreign { result ≡ Err WriteEnd.Foreign
        → IsRefusedAfter M.rules (steps.Take a) pass.new }
    ensures ended { result ≡ Err WriteEnd.Ended → pass.new.left ≡ 0 }
    ensures later { K.faults sink.old ≤ K.faults sink.new }
{
    match make(rt, history, pass, &Step::Take(a), clock) {
        Ok((answer, _place)) => write_answer(alloc, history.model(), line, answer, sink),
        Err(fault) => Err(refused(fault)),
    }
}
