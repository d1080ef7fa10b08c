//! A report, cut into PDUs (IEC 61850-8-1, segmentation of reports).

ghost use Rattle.std.specs.Prelude.{◌≡◌, ◌+◌, ◌*◌, ◌++◌, ◌∷◌, ◌≤◌, ◌<◌, List, length, take, drop};
ghost use Rattle.std.specs.Prelude.{suc, IfOk};
ghost use Rattle.std.specs.List.{All, AllByRecursion, sum_by};
ghost use Rattle.report_cut.specs.Sizes.{cost, fits_size};
ghost use Rattle.report_cut.specs.Cutting.{taken, cut_from};
ghost use Rattle.output_shapes.specs.Shapes.{IsShort, CanBeCut};
ghost use Rattle.report_cut.specs.Pdus.{pdus as pdus_of, fits, spelled, IsCut};

use crate::measure::{cost_of, fixed_len, framed};
use crate::pdu::written;
use crate::pdus::Pdus;
use crate::segment::Segment;
use bay_model::{Member, Report};
use std::alloc::{AllocError, Global};
use sv_base::{Bits, Octs};

/// How many octets the members add to the results.
fn sum_of(opts: &Bits, members: &[Member]) -> u32
    requires few { length members.now ≤ 256 }
    requires short { All IsShort members.now }
    ensures value { result ≡ sum_by (cost opts.now) members.now }
    ensures small { result ≤ 640 * length members.now }
{
    let mut sum = 0;
    for member in members {
        sum += cost_of(opts, member);
    }
    sum
}

/// How many members a segment takes, and how many octets its results have then.
fn end_of(opts: &Bits, members: &[Member], fixed: u32, size: u32) -> (usize, u32)
    requires some { 0 < length members.now }
    requires few { length members.now ≤ 256 }
    requires fixed { fixed ≤ 400 }
    requires short { All IsShort members.now }
    ensures count { result.0 ≡ taken (fits_size size) (cost opts.now) fixed members.now }
    ensures least { 0 < result.0 }
    ensures most { result.0 ≤ length members.now }
    ensures sum { result.1 ≡ fixed + sum_by (cost opts.now) (take result.0 members.now) }
    ensures small { result.1 ≤ 400 + 640 * 256 }
{
    let mut sum = fixed + cost_of(opts, &members[0]);
    let mut end = 1;
    while end < members.len() {
        let more = sum + cost_of(opts, &members[end]);
        if framed(more) > size {
            return (end, sum);
        }
        sum = more;
        end += 1;
    }
    (end, sum)
}

/// The members from a place on.
fn behind(members: &[Member], place: usize) -> &[Member]
    requires { place ≤ length members.now }
    ensures { result.now ≡ drop place members.now }
{
    &members[place..]
}

/// The members before a place.
fn before(members: &[Member], place: usize) -> &[Member]
    requires { place ≤ length members.now }
    ensures { result.now ≡ take place members.now }
{
    &members[..place]
}

/// The next segment's PDU, and how many members it has.
#[tactic(auto, using(crate::proofs::StepLaws::next_pdu, crate::proofs::StepLaws::sized))]
fn next(
    alloc: Global,
    report: &Report,
    rest: &[Member],
    sub: u32,
    size: u32,
) -> Result<(Octs, usize), AllocError>
    requires options { length report.now.opt_flds ≡ 10 }
    requires rpt_id { length report.now.rpt_id ≤ 129 }
    requires dat_set { length report.now.dat_set ≤ 129 }
    requires total { report.now.total ≤ 256 }
    requires some { 0 < length rest.now }
    requires few { length rest.now ≤ 256 }
    requires short { All IsShort rest.now }
    ensures count { IfOk result (λ x. (0 < x.1) × (x.1 ≤ length rest.now)) }
    ensures value { IfOk result (λ x. spelled report.now sub
        (cut_from (fits report.now size) sub rest.now)
        ≡ x.0 ∷ spelled report.now (suc sub) (cut_from (fits report.now size) (suc sub)
        (drop x.1 rest.now))) }
{
    let fixed = fixed_len(report, Some(Segment { sub, more: true }));
    let (end, n) = end_of(&report.opt_flds, rest, fixed, size);
    let more = !behind(rest, end).is_empty();
    let pdu = written(
        alloc,
        report,
        Some(Segment { sub, more }),
        before(rest, end),
        n,
    )?;
    Ok((pdu, end))
}

/// The PDUs of a report that doesn't fit one.
fn segmented(alloc: Global, report: &Report, size: u32) -> Result<Pdus, AllocError>
    requires options { length report.now.opt_flds ≡ 10 }
    requires rpt_id { length report.now.rpt_id ≤ 129 }
    requires dat_set { length report.now.dat_set ≤ 129 }
    requires total { report.now.total ≤ 256 }
    requires few { length report.now.members ≤ 256 }
    requires short { All IsShort report.now.members }
    ensures { IfOk result (λ p. p ≡ spelled report.now 0
        (cut_from (fits report.now size) 0 report.now.members)) }
{
    let mut pdus = Vec::new(alloc);
    let mut rest = report.members.as_slice();
    let mut sub = 0u32;
    while !rest.is_empty() {
        let (pdu, end) = next(alloc, report, rest, sub, size)?;
        pdus.push(pdu)?;
        rest = behind(rest, end);
        sub += 1;
    }
    Ok(Pdus::from_vec(pdus))
}

/// The PDUs of a report: one where that fits.
#[tactic(auto, using(crate::proofs::StepLaws::few_members, crate::proofs::StepLaws::one_pdu, crate::proofs::StepLaws::many_pdus))]
fn cut_pdus(alloc: Global, report: &Report, size: u32) -> Result<Pdus, AllocError>
    requires { CanBeCut report.now }
    ensures { IfOk result (λ p. p ≡ pdus_of report.now size) }
{
    let members = report.members.as_slice();
    let n = fixed_len(report, None) + sum_of(&report.opt_flds, members);
    if framed(n) > size {
        return segmented(alloc, report, size);
    }
    let mut pdus = Vec::with_capacity(alloc, 1)?;
    pdus.push(written(alloc, report, None, members, n)?)?;
    Ok(Pdus::from_vec(pdus))
}

/// The PDUs of a report: one where that has at most `size` octets, 1024 to 65000, else segments with SubSqNum from 0, each
/// with as many further members as fit (IEC 61850-8-1, segmentation of reports).
///
/// OptFlds has ten bits, of which bit 9 is sent as whether the report goes in segments. The data set has 1 to 256 members,
/// and the members' numbers ascend within them. RptID, DatSet and each reference have at most 129 octets, and each member's
/// octets are one whole Data of at most 500.
///
/// Fails only when out of memory.
pub fn cut(alloc: Global, report: &Report, size: u32) -> Result<Pdus, AllocError>
    requires report { CanBeCut report.now }
    requires least { 1024 ≤ size }
    requires most { size ≤ 65000 }
    ensures value { IfOk result (λ p. p ≡ pdus_of report.now size) }
    // One PDU, or segments with each member once and in order, of which none could take one more.
    ensures segments { IfOk result (IsCut report.now size) }
    ensures short { IfOk result (λ p. AllByRecursion (λ o. length o ≤ size) p) }
{
    let pdus = cut_pdus(alloc, report, size)?;
    Ok(pdus)
}
