//! A PDU of a report, read (IEC 61850-8-1, mapping of the Report service; ISO 9506-2, InformationReport).

ghost use Rattle.std.specs.Prelude.{◌≡◌, ◌≤◌, [], List, length, IfOk, IfSome};
ghost use Rattle.std.specs.Option.{option_map};
ghost use Rattle.ber_grammar.specs.Reader.{and_then, GivesOrMemory, ReadsOrMemory};
ghost use Rattle.ber_grammar.specs.Steps.{required};
ghost use Rattle.report_cut.specs.declared.fault.ReportFault.TheVariants.{Invalid};
ghost use Rattle.report_cut.specs.Part.{IsReportPart, IsPartRefused};
ghost use Rattle.report_cut.specs.PartReading.{fault_of, is_rpt, identity_at, first_fields_at};
ghost use Rattle.report_cut.specs.PartReading.{further_fields_at, place_at, body_at, results_in};
ghost use Rattle.report_cut.specs.PartReading.{told_by, part_at};

use crate::fault::ReportFault;
use crate::measure::bit;
use crate::part::ReportPart;
use crate::taking::{
    enclosed, field, take_id, take_number, take_options, take_short, take_text, take_time,
    take_truth,
};
use crate::told::read_body;
use bay_model::Report;
use ber_view::BitView;
use mms_data::all_bits;
use mms_elements::tags;
use std::alloc::Global;
use sv_base::{Bits, BlockNo, Moment, Octs};

/// RptID and OptFlds.
#[tactic(auto, unfolding(crate::specs::PartReading::identity_at))]
fn identity_of(octets: &[u8]) -> Option<(&[u8], BitView<'_>, &[u8])>
    ensures { option_map (λ x. (x.0.now, x.1, x.2.now)) result ≡ identity_at octets.now }
{
    let (rpt_id, rest) = take_text(true, octets)?;
    let (opt_flds, rest) = take_options(rest)?;
    Some((rpt_id, opt_flds, rest))
}

/// SqNum, TimeofEntry and DatSet.
#[tactic(auto, unfolding(crate::specs::PartReading::first_fields_at))]
fn first_of<'a>(opts: &Bits, octets: &'a [u8]) -> Option<(u16, Moment, &'a [u8], &'a [u8])>
    ensures { option_map (λ x. (x.0, x.1, x.2.now, x.3.now)) result
        ≡ first_fields_at opts.now octets.now }
{
    let (sq, rest) = take_short(bit(opts, 1), octets)?;
    let Some((time, rest)) = take_time(bit(opts, 2), rest) else {
        return None;
    };
    let (dat_set, rest) = take_text(bit(opts, 4), rest)?;
    Some((sq, time, dat_set, rest))
}

/// BufOvfl, EntryID and ConfRev.
#[tactic(auto, unfolding(crate::specs::PartReading::further_fields_at))]
fn further_of<'a>(opts: &Bits, octets: &'a [u8]) -> Option<(bool, u64, u32, &'a [u8])>
    ensures { option_map (λ x. (x.0, x.1, x.2, x.3.now)) result
        ≡ further_fields_at opts.now octets.now }
{
    let (ovfl, rest) = take_truth(bit(opts, 6), octets)?;
    let (id, rest) = take_id(bit(opts, 7), rest)?;
    let (conf_rev, rest) = take_number(bit(opts, 8), rest)?;
    Some((ovfl, id, conf_rev, rest))
}

/// SubSqNum and MoreSegmentsFollow.
#[tactic(auto, unfolding(crate::specs::PartReading::place_at))]
fn place_of(segmented: bool, octets: &[u8]) -> Option<(u32, bool, &[u8])>
    ensures { option_map (λ x. (x.0, x.1, x.2.now)) result ≡ place_at segmented octets.now }
{
    let (sub, rest) = take_number(segmented, octets)?;
    let (more, rest) = take_truth(segmented, rest)?;
    Some((sub, more, rest))
}

/// What the results say.
#[tactic(auto, unfolding(crate::specs::PartReading::told_by))]
fn read_results(alloc: Global, results: &[u8]) -> Result<ReportPart, ReportFault>
    ensures { GivesOrMemory fault_of (λ p. p) result (required Invalid (told_by results.now)) }
{
    let Some((rpt_id, opt_flds, rest)) = identity_of(results) else {
        return Err(ReportFault::Invalid);
    };
    let opts = Bits::from_vec(all_bits(alloc, &opt_flds)?);
    let Some((sq, time, dat_set, rest)) = first_of(&opts, rest) else {
        return Err(ReportFault::Invalid);
    };
    let Some((ovfl, id, conf_rev, rest)) = further_of(&opts, rest) else {
        return Err(ReportFault::Invalid);
    };
    let Some((sub, more, rest)) = place_of(bit(&opts, 9), rest) else {
        return Err(ReportFault::Invalid);
    };
    let (total, members) = read_body(alloc, bit(&opts, 5), bit(&opts, 3), rest)?;
    let report = Report {
        block: BlockNo(0),
        rpt_id: Octs::copied(alloc, rpt_id)?,
        opt_flds: opts,
        sq,
        time,
        dat_set: Octs::copied(alloc, dat_set)?,
        ovfl,
        id,
        conf_rev,
        total,
        members,
    };
    Ok(ReportPart { report, sub, more })
}

fn is_list_name(name: &[u8]) -> bool
    ensures { result ≡ is_rpt name.now }
{
    match name {
        [a, b, c] => *a == 0x52 && *b == 0x50 && *c == 0x54,
        _ => false,
    }
}

/// The results of a report under the list name RPT.
#[tactic(auto, unfolding(crate::specs::PartReading::results_in))]
fn results_of(input: &[u8]) -> Option<&[u8]>
    ensures { option_map (λ x. x.now) result ≡ results_in input.now }
{
    let service = enclosed(tags::UNCONFIRMED, input)?;
    let content = enclosed(tags::INFORMATION_REPORT, service)?;
    let (names, rest) = field(tags::VARIABLE_LIST_NAME, true, content)?;
    let name = match names {
        None => &[],
        Some(names) => enclosed(tags::VMD_SPECIFIC, names)?,
    };
    if !is_list_name(name) {
        return None;
    }
    enclosed(tags::REPORT_RESULTS, rest)
}

#[tactic(auto, unfolding(crate::specs::PartReading::part_at))]
fn read_part(alloc: Global, input: &[u8]) -> Result<ReportPart, ReportFault>
    ensures { GivesOrMemory fault_of (λ p. p) result (part_at input.now) }
{
    match results_of(input) {
        None => Err(ReportFault::Invalid),
        Some(results) => read_results(alloc, results),
    }
}

/// What one PDU of a report says: its fields as OptFlds says which there are, and its own members (IEC 61850-8-1, mapping of
/// the Report service and segmentation of reports).
///
/// Fails with `Invalid` where the octets are no such PDU: OptFlds has ten bits, the inclusion bits are 1 to 256, SqNum is
/// below 65536, an EntryID has eight octets, a TimeofEntry is a moment's, and reasons are seven bits of which the first and
/// the last are 0. `Memory` is out of memory.
pub fn read_report(alloc: Global, input: &[u8]) -> Result<ReportPart, ReportFault>
    // What the octets say where they are such a PDU, else that they are none.
    ensures reads { ReadsOrMemory fault_of (λ p. p) result (IsReportPart input.now)
        (IsPartRefused input.now) }
    ensures exact { GivesOrMemory fault_of (λ p. p) result (part_at input.now) }
{
    read_part(alloc, input)
}
