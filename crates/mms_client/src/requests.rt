//! Requests, as octets to send.

ghost use Rattle.std.specs.Prelude.{◌≡◌, ◌≤◌, suc, ℕ, IfOk};
ghost use Rattle.sv_base.specs.Depth.{depth, HasNoOther};
ghost use Rattle.sv_base.specs.Seen.{seen_of};
ghost use Rattle.mms_data.specs.Writable.{SeenHasFractions};
ghost use Rattle.osi_stack.specs.Framed.{framed};
ghost use Rattle.osi_stack.specs.Lines.{IsLine};
ghost use Rattle.mms_client.specs.References.{IsReference, reading_of, writing_of};
ghost use Rattle.mms_client.specs.Requests.{number_after, pdu_of, conclude_octets, finish_octets};

use crate::reference::split;
use mms_pdu::{write_conclude_request, write_read_request, write_write_request};
use osi_stack::{Caller, Line, frames, short_pdus_fit};
use std::alloc::{AllocError, Global};
use sv_base::{Octs, Value};

/// The number after a number: 1 after the greatest.
pub fn after(invoke: u32) -> u32
    ensures { (count : ℕ) → invoke ≡ number_after count → result ≡ number_after (suc count) }
{
    if invoke == u32::MAX { 1 } else { invoke + 1 }
}

/// The octets of a PDU on a line. No PDU of a client is so long that it finds no room.
fn framed_pdu(alloc: Global, line: Line, pdu: &[u8]) -> Result<Octs, AllocError>
    requires { IsLine line }
    ensures { IfOk result (λ o. o ≡ framed line pdu.now) }
{
    if pdu.len() > 4294967000 {
        return Err(AllocError);
    }
    short_pdus_fit();
    frames(alloc, line, pdu)
}

/// The request to read a variable.
pub fn read_octets(
    alloc: Global,
    line: Line,
    invoke: u32,
    reference: &str,
) -> Result<Octs, AllocError>
    requires line { IsLine line }
    requires reference { IsReference reference.now }
    ensures { IfOk result (λ o. o ≡ framed line (pdu_of invoke (reading_of reference.now))) }
{
    let (domain, item) = split(reference);
    let pdu = write_read_request(alloc, invoke, domain.as_bytes(), item.as_bytes())?;
    framed_pdu(alloc, line, pdu.as_slice())
}

/// The request to write a variable.
pub fn write_octets(
    alloc: Global,
    line: Line,
    invoke: u32,
    reference: &str,
    value: &Value,
) -> Result<Octs, AllocError>
    requires line { IsLine line }
    requires reference { IsReference reference.now }
    requires no_other { HasNoOther value.now }
    requires depth { depth value.now ≤ 10 }
    requires fractions { SeenHasFractions (seen_of value.now) }
    ensures { IfOk result (λ o. o
        ≡ framed line (pdu_of invoke (writing_of reference.now value.now))) }
{
    let (domain, item) = split(reference);
    let pdu = write_write_request(alloc, invoke, domain.as_bytes(), item.as_bytes(), value)?;
    framed_pdu(alloc, line, pdu.as_slice())
}

/// The request to conclude.
pub fn conclude_octets(alloc: Global, line: Line) -> Result<Octs, AllocError>
    requires { IsLine line }
    ensures { IfOk result (λ o. o ≡ conclude_octets line) }
{
    framed_pdu(alloc, line, &write_conclude_request())
}

/// The request to release.
pub fn finish_octets(alloc: Global, line: Line) -> Result<Octs, AllocError>
    requires { IsLine line }
    ensures { IfOk result (λ o. o ≡ finish_octets line) }
{
    Caller::release(alloc, line)
}
