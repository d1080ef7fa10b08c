//! The lines of what associations of MMS take, as PDUs or in frames.

ghost use Rattle.std.specs.Prelude.{◌≡◌, ◌≤◌, ◌++◌, length, take, IfOk, OnOk, OnErr};
ghost use Rattle.std.specs.List.{flat_map, AllByRecursion};
ghost use Rattle.bay_answers.specs.Replies.{output_pdus};
ghost use Rattle.osi_stack.specs.Lines.{IsLine};
ghost use Rattle.stream_lines.specs.Lines.{framed_line};
ghost use Rattle.answer_text.specs.Texts.{pdu_line};

use bay_model::Output;
use object_model::Model;
use osi_stack::Line;
use output_pdus::{pdus_of, tpkts_of};
use std::alloc::{AllocError, Global};
use stream_lines::{push_frame, push_hex, push_number};
use sv_base::{AssocNo, Octs};

/// Writes a PDU.
fn push_pdu(out: &mut Vec<u8>, a: AssocNo, pdu: &[u8]) -> Result<(), AllocError>
    ensures ok { OnOk result (out.new.items ≡ out.old.items ++ pdu_line a.0 pdu.now) }
    ensures err { OnErr result (take (length out.old.items) out.new.items ≡ out.old.items) }
{
    push_number(out, u64::from(a.0))?;
    out.extend_from_slice(b" pdu ")?;
    push_hex(out, pdu)?;
    out.push(b'\n')?;
    Ok(())
}

/// Writes PDUs.
fn push_all(out: &mut Vec<u8>, a: AssocNo, pdus: &[Octs]) -> Result<(), AllocError>
    ensures ok { OnOk result (out.new.items ≡ out.old.items ++ flat_map (pdu_line a.0) pdus.now) }
    ensures err { OnErr result (take (length out.old.items) out.new.items ≡ out.old.items) }
{
    for pdu in pdus {
        push_pdu(out, a, pdu.as_slice())?;
    }
    Ok(())
}

/// Writes a PDU of at most 65000 octets in its frame on this line.
fn push_one(
    alloc: Global,
    out: &mut Vec<u8>,
    line: Line,
    a: AssocNo,
    pdu: &[u8],
) -> Result<(), AllocError>
    requires line { IsLine line }
    requires short { length pdu.now ≤ 65000 }
    ensures ok { OnOk result (out.new.items ≡ out.old.items ++ framed_line line a.0 pdu.now) }
    ensures err { OnErr result (take (length out.old.items) out.new.items ≡ out.old.items) }
{
    let octets = tpkts_of(alloc, line, pdu)?;
    push_frame(out, a, octets.as_slice())
}

/// Writes PDUs of at most 65000 octets, each in its frame on this line.
fn push_framed(
    alloc: Global,
    out: &mut Vec<u8>,
    line: Line,
    a: AssocNo,
    pdus: &[Octs],
) -> Result<(), AllocError>
    requires line { IsLine line }
    requires short { AllByRecursion (λ o. length o ≤ 65000) pdus.now }
    ensures ok { OnOk result (out.new.items ≡ out.old.items ++ flat_map
        (framed_line line a.0) pdus.now) }
    ensures err { OnErr result (take (length out.old.items) out.new.items ≡ out.old.items) }
{
    match pdus {
        [] => Ok(()),
        [pdu, more @ ..] => {
            push_one(alloc, out, line, a, pdu.as_slice())?;
            push_framed(alloc, out, line, a, more)
        }
    }
}

/// Writes what an association took whose PDUs have at most n octets.
pub fn push_output(
    alloc: Global,
    out: &mut Vec<u8>,
    model: &Model,
    size: u32,
    a: AssocNo,
    output: &Output,
) -> Result<(), AllocError>
    requires least { 1024 ≤ size }
    requires most { size ≤ 65000 }
    ensures ok { OnOk result (out.new.items ≡ out.old.items ++ flat_map (pdu_line a.0)
        (output_pdus model.now size output.now)) }
    ensures err { OnErr result (take (length out.old.items) out.new.items ≡ out.old.items) }
{
    let pdus = pdus_of(alloc, model, size, output)?;
    push_all(out, a, pdus.as_slice())
}

/// Writes what an association on the wire took.
pub fn push_sent(
    alloc: Global,
    out: &mut Vec<u8>,
    model: &Model,
    line: Line,
    a: AssocNo,
    output: &Output,
) -> Result<(), AllocError>
    requires { IsLine line }
    ensures ok { OnOk result (out.new.items ≡ out.old.items ++ flat_map (framed_line line a.0)
        (output_pdus model.now line.size output.now)) }
    ensures err { OnErr result (take (length out.old.items) out.new.items ≡ out.old.items) }
{
    let pdus = pdus_of(alloc, model, line.size, output)?;
    push_framed(alloc, out, line, a, pdus.as_slice())
}
