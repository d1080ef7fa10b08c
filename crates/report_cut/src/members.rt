//! The members of one PDU, written: which, their references, Data and reasons (IEC 61850-8-1, mapping of the Report service).

ghost use Rattle.std.specs.Prelude.{◌≡◌, ◌++◌, ◌≤◌, ◌<◌, List, length, OnOk, IfOk};
ghost use Rattle.ber_write.specs.BitString.{weigh as weigh_of};
ghost use Rattle.report_cut.specs.Fields.{included as included_of, inclusion, references, values};
ghost use Rattle.report_cut.specs.Fields.{reason_octet as reason_octet_of, reasons, optional, body};

use crate::measure::bit;
use bay_model::{Member, Reasons, Report};
use ber_write::{add, put_bits};
use mms_data::tags;
use std::alloc::{AllocError, Global};

/// One bit a member of the set.
fn included(alloc: Global, total: u32, members: &[Member]) -> Result<Vec<bool>, AllocError>
    ensures value { IfOk result (λ v. v.items ≡ included_of total members.now) }
    ensures count { IfOk result (λ v. length v.items ≡ total) }
{
    let mut bits = vec![in alloc; false; total as usize]?;
    for member in members {
        let place = (member.number.0 as usize).saturating_sub(1);
        if place < bits.len() {
            bits[place] = true;
        }
    }
    Ok(bits)
}

#[tactic(auto, unfolding(crate::specs::Fields::inclusion))]
fn put_inclusion(
    alloc: Global,
    out: &mut Vec<u8>,
    total: u32,
    members: &[Member],
) -> Result<(), AllocError>
    ensures { OnOk result (out.new.items ≡ out.old.items ++ inclusion total members.now) }
{
    let bits = included(alloc, total, members)?;
    put_bits(out, tags::BIT_STRING, &bits)
}

fn put_references(out: &mut Vec<u8>, members: &[Member]) -> Result<(), AllocError>
    ensures { OnOk result (out.new.items ≡ out.old.items ++ references members.now) }
{
    for member in members {
        add(out, tags::VISIBLE_STRING, member.reference.as_slice())?;
    }
    Ok(())
}

fn put_values(out: &mut Vec<u8>, members: &[Member]) -> Result<(), AllocError>
    ensures { OnOk result (out.new.items ≡ out.old.items ++ values members.now) }
{
    for member in members {
        out.extend_from_slice(member.octets.as_slice())?;
    }
    Ok(())
}

fn weigh(b: bool, weight: u8) -> u8
    ensures value { result ≡ weigh_of b weight }
    ensures few { result ≤ weight }
{
    if b { weight } else { 0 }
}

fn reason_octet(reasons: Reasons) -> u8
    ensures { result ≡ reason_octet_of reasons }
{
    weigh(reasons.dchg, 64)
        + weigh(reasons.qchg, 32)
        + weigh(reasons.dupd, 16)
        + weigh(reasons.intg, 8)
        + weigh(reasons.gi, 4)
}

fn put_reasons(out: &mut Vec<u8>, members: &[Member]) -> Result<(), AllocError>
    ensures { OnOk result (out.new.items ≡ out.old.items ++ reasons members.now) }
{
    for member in members {
        add(out, tags::BIT_STRING, &[1, reason_octet(member.reasons)])?;
    }
    Ok(())
}

fn put_references_if(out: &mut Vec<u8>, asked: bool, members: &[Member]) -> Result<(), AllocError>
    ensures { OnOk result (out.new.items ≡ out.old.items ++ optional asked
        (references members.now)) }
{
    if !asked {
        return Ok(());
    }
    put_references(out, members)
}

fn put_reasons_if(out: &mut Vec<u8>, asked: bool, members: &[Member]) -> Result<(), AllocError>
    ensures { OnOk result (out.new.items ≡ out.old.items ++ optional asked (reasons members.now)) }
{
    if !asked {
        return Ok(());
    }
    put_reasons(out, members)
}

/// Adds the members of one PDU.
#[tactic(auto, unfolding(crate::specs::Fields::body))]
pub(crate) fn put_body(
    alloc: Global,
    out: &mut Vec<u8>,
    report: &Report,
    members: &[Member],
) -> Result<(), AllocError>
    ensures { OnOk result (out.new.items ≡ out.old.items ++ body report.now members.now) }
{
    put_inclusion(alloc, out, report.total, members)?;
    put_references_if(out, bit(&report.opt_flds, 5), members)?;
    put_values(out, members)?;
    put_reasons_if(out, bit(&report.opt_flds, 3), members)
}
