//! What SPDUs do to a connection on the side that called.

ghost use Rattle.std.specs.Prelude.{◌≡◌, [], IfOk};
ghost use Rattle.tpkt_cotp.specs.Written.{IsExponent, tsdu_of};
ghost use Rattle.session_pres.specs.Plain.{user_now};
ghost use Rattle.osi_stack.specs.Causes.{Comes};
ghost use Rattle.osi_stack.specs.Lines.{IsLine, IsProposal, IsSound};
ghost use Rattle.osi_stack.specs.Calling.{request_spdu, asking_at, end_at, joined_at};

use crate::called::{in_context, take_pdu};
use crate::cause::Stop;
use crate::events::{Event, Line};
use crate::phase::{Phase, Transition};
use acse_apdu::{read_aare, read_rlre, write_aarq};
use mms_initiate::{read_initiate_answer, write_initiate_request};
use session_pres::codes::DISCONNECT;
use session_pres::{SpFault, Spdu, read_ac, read_dn, read_spdu, write_cn};
use std::alloc::{AllocError, Global};
use sv_base::Octs;
use tpkt_cotp::tsdu;

/// The number of the presentation context of association control, and that of MMS, which a caller proposes.
const ACSE: u32 = 1;

const MMS: u32 = 3;

/// The CONNECT that proposes PDUs of at most this size, in its TPKTs.
#[tactic(auto, unfolding(crate::specs::Calling::request_spdu), using(crate::proofs::FitLaws::aarq_fits, crate::proofs::FitLaws::connect_fits))]
pub fn request(alloc: Global, exponent: u8, size: u32) -> Result<Octs, AllocError>
    requires exponent { IsExponent exponent }
    requires size { IsProposal size }
    ensures { IfOk result (λ o. o ≡ tsdu_of exponent (request_spdu size)) }
{
    let initiate = write_initiate_request(alloc, size)?;
    let aarq = write_aarq(alloc, MMS, initiate.as_slice())?;
    let connect = write_cn(alloc, aarq.as_slice())?;
    tsdu(alloc, exponent, connect.as_slice())
}

/// No octets.
fn nothing(alloc: Global) -> Octs
    ensures { result ≡ [] }
{
    Octs::from_vec(Vec::new(alloc))
}

/// Takes the TSDU after a CC.
#[tactic(auto, unfolding(crate::specs::Calling::asking_at))]
pub fn take_answer(
    alloc: Global,
    exponent: u8,
    size: u32,
    octets: &[u8],
) -> Result<Transition, Stop>
    requires exponent { IsExponent exponent }
    requires size { IsProposal size }
    ensures comes { Comes (λ x. x) result (asking_at exponent size octets.now) }
    ensures sound { IfOk result IsSound }
{
    let apdu = read_ac(octets)?;
    let pdu = read_aare(apdu)?;
    let said = read_initiate_answer(pdu)?;
    let line = Line {
        context: MMS,
        exponent,
        size: said.size.min(size),
    };
    Ok((
        Phase::Joined(line),
        Some(Event::Connected(line, nothing(alloc))),
    ))
}

/// Takes a DISCONNECT with the user data that it may have.
#[tactic(auto, unfolding(crate::specs::Calling::end_at))]
fn end(alloc: Global, user: Option<&[u8]>) -> Result<Transition, Stop>
    ensures comes { Comes (λ x. x) result (end_at (user_now user.entry)) }
    ensures sound { IfOk result IsSound }
{
    if let Some(user) = user {
        read_rlre(in_context(ACSE, user)?)?;
    }
    Ok((Phase::Ended, Some(Event::Released(nothing(alloc)))))
}

/// Takes a TSDU of the association.
#[tactic(auto, unfolding(crate::specs::Calling::joined_at))]
pub fn take_served(alloc: Global, line: Line, octets: &[u8]) -> Result<Transition, Stop>
    requires { IsLine line }
    ensures comes { Comes (λ x. x) result (joined_at line octets.now) }
    ensures sound { IfOk result IsSound }
{
    if matches!(octets, [DISCONNECT, ..]) {
        return end(alloc, read_dn(octets)?);
    }
    match read_spdu(octets)? {
        Spdu::Data(user) => take_pdu(alloc, Phase::Joined(line), line, user),
        Spdu::Abort => Ok((Phase::Ended, Some(Event::Aborted))),
        _ => Err(SpFault::Spdu.into()),
    }
}
