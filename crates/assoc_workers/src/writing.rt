//! A side that writes: it takes what waits for its association, and writes it.

ghost use Rattle.std.specs.Prelude.{◌≡◌, ◌≢◌, ◌≤◌, true};
ghost use Rattle.object_model.specs.Fits.{is_association};
ghost use Rattle.osi_stack.specs.Lines.{IsLine};
ghost use Rattle.sv_io.specs.Causes.{Rose};
ghost use Rattle.bay_model.specs.declared.step.Step.TheVariants as steps;
ghost use Rattle.assoc_workers.specs.Made.{IsOf, IsRefusedAfter};
ghost use Rattle.assoc_workers.specs.Writing.{Writes};
ghost use Rattle.assoc_workers.specs.Causes.{IsClosed};
ghost use Rattle.assoc_workers.specs.Taking.{Takes};

use crate::ends::WriteEnd;
use crate::losing::lose;
use crate::taking::{Went, take_one};
use bay_histories::StateMachine;
use history_lock::{History, Pass};
use osi_stack::Line;
use std::alloc::Global;
use std::sync::Wait;
use sv_base::AssocNo;
use sv_io::{Clock, Gate, Sink};

/// Takes and writes until the association is closed, or something fails.
fn take_all<R: Wait, M: StateMachine, K: Sink, C: Clock, G: Gate>(
    rt: &R,
    alloc: Global,
    history: &History<M>,
    pass: &mut Pass<M>,
    a: AssocNo,
    line: Line,
    sink: &mut K,
    clock: &C,
    gate: &mut G,
) -> WriteEnd
    requires pass { IsOf history.now pass.old }
    requires number { is_association a.0 ≡ true }
    requires line { IsLine line }
    ensures takes { Takes M.rules history.now.config a line (C.moment clock.now) result
        pass.old pass.new (K.taken sink.old) (K.taken sink.new) }
    ensures of { IsOf history.now pass.new }
    ensures closed { result ≡ WriteEnd.Closed → IsClosed M.rules a pass.new }
    ensures write { result ≡ WriteEnd.WriteFault → Rose (K.faults sink.old) (K.faults sink.new) }
    ensures foreign { result ≡ WriteEnd.Foreign → IsRefusedAfter M.rules (steps.Take a) pass.new }
    ensures ended { result ≡ WriteEnd.Ended → pass.new.left ≡ 0 }
    ensures idle { result ≢ WriteEnd.Idle }
    ensures later { K.faults sink.old ≤ K.faults sink.new }
{
    let mut written: u64 = 0;
    for _ in rt.forever() {
        match take_one(rt, alloc, history, pass, a, line, sink, clock) {
            Ok(Went::Written) => {
                written = written.saturating_add(1);
                gate.pass(written);
            }
            Ok(Went::Empty) => clock.rest(),
            Ok(Went::Closed) => return WriteEnd::Closed,
            Err(end) => return end,
        }
    }
    unreachable!()
}

/// Takes what waits for the association, one output after the other, and writes the PDUs of each in their TPKTs (RFC 1006). Where
/// nothing waits it rests by the clock. It passes its gate after each output that is written. Where the sink fails, or when out of
/// memory, it gives the association up.
pub fn write_side<R: Wait, M: StateMachine, K: Sink, C: Clock, G: Gate>(
    rt: &R,
    alloc: Global,
    history: &History<M>,
    pass: &mut Pass<M>,
    a: AssocNo,
    line: Line,
    sink: &mut K,
    clock: &C,
    gate: &mut G,
) -> WriteEnd
    requires pass { IsOf history.now pass.old }
    requires number { is_association a.0 ≡ true }
    requires line { IsLine line }
    // Its steps are takes, whose outputs are written in order, and perhaps a loss.
    ensures writes { Writes M.rules history.now.config a line (C.moment clock.now) result
        pass.old pass.new (K.taken sink.old) (K.taken sink.new) }
    // Each end has its cause.
    ensures closed { result ≡ WriteEnd.Closed → IsClosed M.rules a pass.new }
    ensures write { result ≡ WriteEnd.WriteFault → Rose (K.faults sink.old) (K.faults sink.new) }
    ensures foreign { result ≡ WriteEnd.Foreign → IsRefusedAfter M.rules (steps.Take a) pass.new }
    ensures ended { result ≡ WriteEnd.Ended → pass.new.left ≡ 0 }
    ensures idle { result ≢ WriteEnd.Idle }
    ensures later { K.faults sink.old ≤ K.faults sink.new }
    ensures of { IsOf history.now pass.new }
{
    let end = take_all(rt, alloc, history, pass, a, line, sink, clock, gate);
    match end {
        WriteEnd::WriteFault | WriteEnd::Memory => lose(rt, history, pass, a, clock),
        WriteEnd::Closed | WriteEnd::Foreign | WriteEnd::Ended | WriteEnd::Idle => {}
    }
    end
}
