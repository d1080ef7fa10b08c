//! What SPDUs do to a connection on the side that was called.

ghost use Rattle.std.specs.Prelude.{◌≡◌, ◌≤◌, length, IfOk};
ghost use Rattle.tpkt_cotp.specs.Written.{IsExponent, tsdu_of};
ghost use Rattle.session_pres.specs.Plain.{asked_of, user_now};
ghost use Rattle.session_pres.specs.Written.{release_spdu};
ghost use Rattle.acse_apdu.specs.Written.{release_octets};
ghost use Rattle.osi_stack.specs.Causes.{Comes};
ghost use Rattle.osi_stack.specs.Lines.{IsLine, IsAgreed, IsSound};
ghost use Rattle.osi_stack.specs.Called.{CanBeAccepted, acceptance, request_at, first_spdu};
ghost use Rattle.osi_stack.specs.Called.{called_at, in_context, finish_at, pdu_in, next_spdu};
ghost use Rattle.osi_stack.specs.Called.{open_at};

use crate::cause::Stop;
use crate::events::{Event, Line};
use crate::phase::{Phase, Transition};
use acse_apdu::{read_aarq, read_rlrq, write_aare, write_rlre};
use mms_initiate::{Initiate, read_initiate, write_initiate_answer};
use session_pres::{
    Cp, SpFault, Spdu, read_cp, read_data, read_spdu, write_ac, write_cpa, write_dn,
};
use std::alloc::{AllocError, Global};
use sv_base::Octs;
use tpkt_cotp::tsdu;

/// The ACCEPT for a CP and the initiate in it, in its TPKTs.
#[tactic(auto, unfolding(crate::specs::Called::acceptance))]
fn accept(alloc: Global, exponent: u8, cp: &Cp<'_>, asked: &Initiate) -> Result<Octs, AllocError>
    requires exponent { IsExponent exponent }
    requires size { 1024 ≤ asked.now.size }
    requires fits { CanBeAccepted (asked_of cp.now) asked.now }
    ensures { IfOk result (λ o. o ≡ tsdu_of exponent (acceptance (asked_of cp.now) asked.now)) }
{
    let answer = write_initiate_answer(alloc, asked)?;
    let aare = write_aare(alloc, cp.mms, answer.as_slice())?;
    let cpa = write_cpa(alloc, cp, aare.as_slice())?;
    let accept = write_ac(alloc, cpa.as_slice())?;
    tsdu(alloc, exponent, accept.as_slice())
}

/// Takes the user data of a CONNECT.
#[tactic(auto, unfolding(crate::specs::Called::request_at))]
fn request(alloc: Global, exponent: u8, user: &[u8]) -> Result<Transition, Stop>
    requires exponent { IsExponent exponent }
    requires few { length user.now ≤ 70000 }
    ensures comes { Comes (λ x. x) result (request_at exponent user.now) }
    ensures sound { IfOk result IsSound }
{
    let cp = read_cp(user)?;
    let pdu = read_aarq(cp.user)?;
    let asked = read_initiate(pdu)?;
    let octets = accept(alloc, exponent, &cp, &asked)?;
    let line = Line {
        context: cp.mms,
        exponent,
        size: asked.size.min(65000),
    };
    Ok((
        Phase::Open(line, cp.acse),
        Some(Event::Connected(line, octets)),
    ))
}

/// Takes the TSDU after a CR.
#[tactic(auto, unfolding(crate::specs::Called::called_at))]
pub fn take_first(alloc: Global, exponent: u8, octets: &[u8]) -> Result<Transition, Stop>
    requires exponent { IsExponent exponent }
    requires few { length octets.now ≤ 70000 }
    ensures comes { Comes (λ x. x) result (called_at exponent octets.now) }
    ensures sound { IfOk result IsSound }
{
    match read_spdu(octets)? {
        Spdu::Connect(user) => request(alloc, exponent, user),
        _ => Err(SpFault::Spdu.into()),
    }
}

/// The value of user data, where it stands in this context.
#[tactic(auto, unfolding(crate::specs::Called::in_context))]
pub fn in_context(context: u32, user: &[u8]) -> Result<&[u8], Stop>
    ensures { Comes (λ x. x.now) result (in_context context user.now) }
{
    let (number, value) = read_data(user)?;
    if number != context {
        return Err(SpFault::Pdv.into());
    }
    Ok(value)
}

/// Takes user data that carry a PDU of MMS; the phase stays.
#[tactic(auto, unfolding(crate::specs::Called::pdu_in))]
pub fn take_pdu(alloc: Global, phase: Phase, line: Line, user: &[u8]) -> Result<Transition, Stop>
    requires { IsAgreed phase }
    ensures comes { Comes (λ x. x) result (pdu_in phase line user.now) }
    ensures sound { IfOk result IsSound }
{
    let pdu = in_context(line.context, user)?;
    let octets = Octs::from_vec(Vec::from_slice(alloc, pdu)?);
    Ok((phase, Some(Event::Pdu(octets))))
}

/// Takes a FINISH with the user data that it may have.
#[tactic(auto, unfolding(crate::specs::Called::finish_at))]
fn release(alloc: Global, line: Line, acse: u32, user: Option<&[u8]>) -> Result<Transition, Stop>
    requires { IsLine line }
    ensures comes { Comes (λ x. x) result (finish_at line acse (user_now user.entry)) }
    ensures sound { IfOk result IsSound }
{
    if let Some(user) = user {
        read_rlrq(in_context(acse, user)?)?;
    }
    let answer = write_dn(alloc, acse, &write_rlre())?;
    let octets = tsdu(alloc, line.exponent, answer.as_slice())?;
    Ok((Phase::Ended, Some(Event::Released(octets))))
}

/// Takes a TSDU of the association.
#[tactic(auto, unfolding(crate::specs::Called::open_at))]
pub fn take_next(alloc: Global, line: Line, acse: u32, octets: &[u8]) -> Result<Transition, Stop>
    requires { IsLine line }
    ensures comes { Comes (λ x. x) result (open_at line acse octets.now) }
    ensures sound { IfOk result IsSound }
{
    match read_spdu(octets)? {
        Spdu::Data(user) => take_pdu(alloc, Phase::Open(line, acse), line, user),
        Spdu::Finish(user) => release(alloc, line, acse, user),
        Spdu::Abort => Ok((Phase::Ended, Some(Event::Aborted))),
        Spdu::Connect(_) => Err(SpFault::Spdu.into()),
    }
}
