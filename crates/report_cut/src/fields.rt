//! The fields of a report in front of its members, written (IEC 61850-8-1, mapping of the Report service).

ghost use Rattle.std.specs.Prelude.{◌≡◌, ◌++◌, ◌∷◌, List, [], ◌≤◌, length, OnOk, IfOk};
ghost use Rattle.ber_write.specs.Minimal.{octets_of, uint_octets, CanBeTag};
ghost use Rattle.ber_write.specs.BitString.{bit_octets};
ghost use Rattle.mms_data.specs.declared.tags.TheConstants.{UNSIGNED};
ghost use Rattle.report_cut.specs.Fields.{optional, truth as truth_of, flags as flags_of, identity};
ghost use Rattle.report_cut.specs.Fields.{time_octets as time_octets_of, first_fields};
ghost use Rattle.report_cut.specs.Fields.{further_fields, place, front};

use crate::measure::bit;
use crate::segment::Segment;
use bay_model::Report;
use ber_write::{add, put_bits, put_uint};
use mms_data::tags;
use std::alloc::{AllocError, Global};
use sv_base::{Bits, Moment};

fn add_if(out: &mut Vec<u8>, asked: bool, tag: u32, content: &[u8]) -> Result<(), AllocError>
    requires { CanBeTag tag }
    ensures { OnOk result (out.new.items ≡ out.old.items ++ optional asked
        (octets_of tag content.now)) }
{
    if !asked {
        return Ok(());
    }
    add(out, tag, content)
}

fn add_uint_if(out: &mut Vec<u8>, asked: bool, value: u64) -> Result<(), AllocError>
    ensures { OnOk result (out.new.items ≡ out.old.items ++ optional asked
        (octets_of UNSIGNED (uint_octets value))) }
{
    if !asked {
        return Ok(());
    }
    put_uint(out, tags::UNSIGNED, value)
}

/// OptFlds as it is sent.
fn flags(alloc: Global, opts: &Bits, segment: Option<Segment>) -> Result<Vec<bool>, AllocError>
    requires { length opts.now ≡ 10 }
    ensures value { IfOk result (λ v. v.items ≡ flags_of opts.now segment) }
    ensures short { IfOk result (λ v. length v.items ≤ 10) }
{
    let mut bits = Vec::with_capacity(alloc, 10)?;
    bits.extend_from_slice(&opts.as_slice()[..9])?;
    bits.push(segment.is_some())?;
    Ok(bits)
}

/// Adds RptID and OptFlds.
#[tactic(auto, unfolding(crate::specs::Fields::identity))]
fn put_identity(
    alloc: Global,
    out: &mut Vec<u8>,
    report: &Report,
    segment: Option<Segment>,
) -> Result<(), AllocError>
    requires { length report.now.opt_flds ≡ 10 }
    ensures { OnOk result (out.new.items ≡ out.old.items
        ++ identity report.now.rpt_id report.now.opt_flds segment) }
{
    let flags = flags(alloc, &report.opt_flds, segment)?;
    add(out, tags::VISIBLE_STRING, report.rpt_id.as_slice())?;
    put_bits(out, tags::BIT_STRING, &flags)
}

/// A binary time (ISO 9506-2, TimeOfDay).
fn time_octets(time: Moment) -> [u8; 6]
    ensures { result ≡ time_octets_of time }
{
    let since = time.ms() - 441763200000;
    let [a, b, c, d] = ((since % 86400000) as u32).to_be_bytes();
    let [e, f] = ((since / 86400000) as u16).to_be_bytes();
    [a, b, c, d, e, f]
}

/// Adds SqNum, TimeofEntry and DatSet where they are asked for.
#[tactic(auto, unfolding(crate::specs::Fields::first_fields))]
fn put_first(out: &mut Vec<u8>, report: &Report) -> Result<(), AllocError>
    ensures { OnOk result (out.new.items ≡ out.old.items
        ++ first_fields report.now.opt_flds report.now.sq report.now.time report.now.dat_set) }
{
    add_uint_if(out, bit(&report.opt_flds, 1), report.sq as u64)?;
    add_if(
        out,
        bit(&report.opt_flds, 2),
        tags::BINARY_TIME,
        &time_octets(report.time),
    )?;
    add_if(
        out,
        bit(&report.opt_flds, 4),
        tags::VISIBLE_STRING,
        report.dat_set.as_slice(),
    )
}

fn truth(b: bool) -> [u8; 1]
    ensures { result ≡ truth_of b }
{
    [if b { 0xff } else { 0 }]
}

/// Adds BufOvfl, EntryID and ConfRev where they are asked for.
#[tactic(auto, unfolding(crate::specs::Fields::further_fields))]
fn put_further(out: &mut Vec<u8>, report: &Report) -> Result<(), AllocError>
    ensures { OnOk result (out.new.items ≡ out.old.items
        ++ further_fields report.now.opt_flds report.now.ovfl report.now.id report.now.conf_rev) }
{
    add_if(
        out,
        bit(&report.opt_flds, 6),
        tags::BOOLEAN,
        &truth(report.ovfl),
    )?;
    add_if(
        out,
        bit(&report.opt_flds, 7),
        tags::OCTET_STRING,
        &report.id.to_be_bytes(),
    )?;
    add_uint_if(out, bit(&report.opt_flds, 8), report.conf_rev as u64)
}

/// Adds SubSqNum and MoreSegmentsFollow of a segment.
fn put_place(out: &mut Vec<u8>, segment: Option<Segment>) -> Result<(), AllocError>
    ensures { OnOk result (out.new.items ≡ out.old.items ++ place segment) }
{
    match segment {
        None => Ok(()),
        Some(s) => {
            put_uint(out, tags::UNSIGNED, s.sub as u64)?;
            add(out, tags::BOOLEAN, &truth(s.more))
        }
    }
}

/// Adds what comes in front of the members.
#[tactic(auto, unfolding(crate::specs::Fields::front))]
pub(crate) fn put_front(
    alloc: Global,
    out: &mut Vec<u8>,
    report: &Report,
    segment: Option<Segment>,
) -> Result<(), AllocError>
    requires { length report.now.opt_flds ≡ 10 }
    ensures { OnOk result (out.new.items ≡ out.old.items ++ front report.now segment) }
{
    put_identity(alloc, out, report, segment)?;
    put_first(out, report)?;
    put_further(out, report)?;
    put_place(out, segment)
}
