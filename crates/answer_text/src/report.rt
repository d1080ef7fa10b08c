//! The line of a report.

ghost use Rattle.std.specs.Prelude.{◌≡◌, ◌++◌, codes, length, take, OnOk, OnErr, slice_get};
ghost use Rattle.std.specs.Prelude.{if◌then◌else◌};
ghost use Rattle.std.specs.List.{flat_map};
ghost use Rattle.answer_text.specs.Texts.{report_head, report_text, block_text, member_text};
ghost use Rattle.answer_text.specs.Texts.{reason_letters, letter_if};

use bay_model::{Member, Reasons, Report};
use object_model::Model;
use std::alloc::AllocError;
use stream_lines::{push_hex, push_number};
use sv_base::{AssocNo, BlockNo};

/// Writes a letter where a reason is there.
fn push_letter(out: &mut Vec<u8>, there: bool, letter: u8) -> Result<(), AllocError>
    ensures ok { OnOk result (out.new.items ≡ out.old.items ++ letter_if there letter) }
    ensures err { OnErr result (out.new.items ≡ out.old.items) }
{
    if there {
        out.push(letter)?;
    }
    Ok(())
}

/// Writes the letters of the reasons that are there.
fn push_reasons(out: &mut Vec<u8>, reasons: &Reasons) -> Result<(), AllocError>
    ensures ok { OnOk result (out.new.items ≡ out.old.items ++ reason_letters reasons.now) }
    ensures err { OnErr result (take (length out.old.items) out.new.items ≡ out.old.items) }
{
    push_letter(out, reasons.dchg, b'd')?;
    push_letter(out, reasons.qchg, b'q')?;
    push_letter(out, reasons.dupd, b'u')?;
    push_letter(out, reasons.intg, b'i')?;
    push_letter(out, reasons.gi, b'g')
}

/// Writes a member of a report.
fn push_member(out: &mut Vec<u8>, member: &Member) -> Result<(), AllocError>
    ensures ok { OnOk result (out.new.items ≡ out.old.items ++ member_text member.now) }
    ensures err { OnErr result (take (length out.old.items) out.new.items ≡ out.old.items) }
{
    out.push(b' ')?;
    push_number(out, u64::from(member.number.0))?;
    out.push(b'=')?;
    push_reasons(out, &member.reasons)?;
    out.push(b':')?;
    push_hex(out, member.octets.as_slice())?;
    Ok(())
}

/// Writes the members of a report.
fn push_members(out: &mut Vec<u8>, members: &[Member]) -> Result<(), AllocError>
    ensures ok { OnOk result (out.new.items ≡ out.old.items ++ flat_map member_text members.now) }
    ensures err { OnErr result (take (length out.old.items) out.new.items ≡ out.old.items) }
{
    for member in members {
        push_member(out, member)?;
    }
    Ok(())
}

/// Writes whether entries were lost: 1 or 0 after its word.
fn push_overflow(out: &mut Vec<u8>, lost: bool) -> Result<(), AllocError>
    ensures ok { OnOk result (out.new.items ≡ out.old.items ++ codes " ovfl " ++ (if lost
        then codes "1" else codes "0")) }
    ensures err { OnErr result (out.new.items ≡ out.old.items) }
{
    out.extend_from_slice(if lost { b" ovfl 1" } else { b" ovfl 0" })
}

/// Writes the reference of a block.
fn push_block(out: &mut Vec<u8>, model: &Model, block: BlockNo) -> Result<(), AllocError>
    ensures ok { OnOk result (out.new.items ≡ out.old.items ++ block_text
        (slice_get model.now.blocks block.0)) }
    ensures err { OnErr result (out.new.items ≡ out.old.items) }
{
    if let Some(reference) = model.reference_of(block) {
        out.extend_from_slice(reference)?;
    }
    Ok(())
}

/// Writes the fields of a report, before its members.
fn push_head(
    out: &mut Vec<u8>,
    model: &Model,
    a: AssocNo,
    report: &Report,
) -> Result<(), AllocError>
    ensures ok { OnOk result (out.new.items ≡ out.old.items
        ++ report_head model.now a.0 report.now) }
    ensures err { OnErr result (take (length out.old.items) out.new.items ≡ out.old.items) }
{
    push_number(out, u64::from(a.0))?;
    out.extend_from_slice(b" report ")?;
    push_block(out, model, report.block)?;
    out.extend_from_slice(b" sq ")?;
    push_number(out, u64::from(report.sq))?;
    out.extend_from_slice(b" id ")?;
    push_number(out, report.id)?;
    out.extend_from_slice(b" time ")?;
    push_number(out, report.time.ms())?;
    push_overflow(out, report.ovfl)?;
    Ok(())
}

/// Writes a report.
pub fn push_report(
    out: &mut Vec<u8>,
    model: &Model,
    a: AssocNo,
    report: &Report,
) -> Result<(), AllocError>
    ensures ok { OnOk result (out.new.items ≡ out.old.items
        ++ report_text model.now a.0 report.now) }
    ensures err { OnErr result (take (length out.old.items) out.new.items ≡ out.old.items) }
{
    push_head(out, model, a, report)?;
    push_members(out, report.members.as_slice())?;
    out.push(b'\n')?;
    Ok(())
}
