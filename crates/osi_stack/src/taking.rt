//! What a TSDU does to a connection.

ghost use Rattle.std.specs.Prelude.{◌≡◌, ◌≤◌, length, IfOk};
ghost use Rattle.tpkt_cotp.specs.Written.{IsCr, Fits};
ghost use Rattle.osi_stack.specs.Causes.{Comes};
ghost use Rattle.osi_stack.specs.Lines.{IsAgreed, IsSound};
ghost use Rattle.osi_stack.specs.Machine.{connect_at, data_at, tsdu_at};

use crate::called::{take_first, take_next};
use crate::calling::{request, take_answer, take_served};
use crate::cause::Stop;
use crate::events::Event;
use crate::phase::{Phase, Transition};
use std::alloc::{AllocError, Global};
use tpkt_cotp::{Cr, TpFault, Tsdu, confirm};

/// Takes a CR, and answers it by a CC, or on the side that calls a CC, and answers it by a CONNECT.
#[tactic(auto, unfolding(crate::specs::Machine::connect_at))]
fn connect(alloc: Global, phase: Phase, cr: &Cr) -> Result<Transition, AllocError>
    requires agreed { IsAgreed phase }
    requires fits { IsCr cr.now }
    ensures comes { IfOk result (λ x. x ≡ connect_at phase cr.now) }
    ensures sound { IfOk result IsSound }
{
    if let Phase::Calling(size) = phase {
        let exponent = cr.size.unwrap_or(13);
        let octets = request(alloc, exponent, size)?;
        return Ok((Phase::Asking(exponent, size), Some(Event::Answer(octets))));
    }
    let octets = confirm(alloc, cr)?;
    Ok((
        Phase::Called(cr.size.unwrap_or(16)),
        Some(Event::Answer(octets)),
    ))
}

/// Takes the octets of a TSDU.
#[tactic(auto, unfolding(crate::specs::Machine::data_at))]
fn data(alloc: Global, phase: Phase, octets: &[u8]) -> Result<Transition, Stop>
    requires agreed { IsAgreed phase }
    requires few { length octets.now ≤ 70000 }
    ensures comes { Comes (λ x. x) result (data_at phase octets.now) }
    ensures sound { IfOk result IsSound }
{
    match phase {
        Phase::Idle | Phase::Calling(_) => Err(TpFault::Sequence.into()),
        Phase::Called(exponent) => take_first(alloc, exponent, octets),
        Phase::Open(line, acse) => take_next(alloc, line, acse, octets),
        Phase::Asking(exponent, size) => take_answer(alloc, exponent, size, octets),
        Phase::Joined(line) => take_served(alloc, line, octets),
        Phase::Ended => Ok((Phase::Ended, None)),
    }
}

/// Takes a TSDU.
#[tactic(auto, unfolding(crate::specs::Machine::tsdu_at))]
pub fn take(alloc: Global, phase: Phase, tsdu: &Tsdu) -> Result<Transition, Stop>
    requires agreed { IsAgreed phase }
    requires fits { Fits tsdu.now }
    ensures comes { Comes (λ x. x) result (tsdu_at phase tsdu.now) }
    ensures sound { IfOk result IsSound }
{
    match tsdu {
        Tsdu::Connect(cr) => Ok(connect(alloc, phase, cr)?),
        Tsdu::Data(octets) => data(alloc, phase, octets.as_slice()),
        Tsdu::Disconnect => Ok((Phase::Ended, Some(Event::Aborted))),
    }
}
