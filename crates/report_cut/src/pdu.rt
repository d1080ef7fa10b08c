//! One PDU of a report, written (ISO 9506-2, Unconfirmed-PDU with an InformationReport).

ghost use Rattle.std.specs.Prelude.{◌≡◌, ◌++◌, ◌≤◌, ◌<◌, ◌^◌, List, length, OnOk, IfOk};
ghost use Rattle.ber_write.specs.Minimal.{element_size};
ghost use Rattle.report_cut.specs.Fields.{pdu, results};
ghost use Rattle.report_cut.specs.Sizes.{results_size, framed as framed_of};
ghost use Rattle.report_cut.specs.Framed.{opening};

use crate::fields::put_front;
use crate::measure::{element_len, framed};
use crate::members::put_body;
use crate::segment::Segment;
use bay_model::{Member, Report};
use ber_write::put_head;
use mms_elements::tags;
use std::alloc::{AllocError, Global};
use sv_base::Octs;

/// Adds what comes in front of n octets of results.
#[tactic(auto, unfolding(crate::specs::Framed::opening))]
fn put_opening(out: &mut Vec<u8>, n: u32) -> Result<(), AllocError>
    requires { n < 2 ^ 23 }
    ensures { OnOk result (out.new.items ≡ out.old.items ++ opening n) }
{
    let content = 7 + element_len(n);
    put_head(out, tags::UNCONFIRMED, element_len(content))?;
    put_head(out, tags::INFORMATION_REPORT, content)?;
    out.extend_from_slice(&[0xa1, 5, 0x80, 3, 0x52, 0x50, 0x54])?;
    put_head(out, tags::REPORT_RESULTS, n)
}

/// Adds the results.
fn put_results(
    alloc: Global,
    out: &mut Vec<u8>,
    report: &Report,
    segment: Option<Segment>,
    members: &[Member],
) -> Result<(), AllocError>
    requires { length report.now.opt_flds ≡ 10 }
    ensures { OnOk result (out.new.items ≡ out.old.items
        ++ results report.now segment members.now) }
{
    put_front(alloc, out, report, segment)?;
    put_body(alloc, out, report, members)
}

/// One PDU, of which the results have `n` octets, in a vector that has capacity for it and no more.
#[tactic(auto, using(crate::proofs::PduLaws::opened))]
pub(crate) fn written(
    alloc: Global,
    report: &Report,
    segment: Option<Segment>,
    members: &[Member],
    n: u32,
) -> Result<Octs, AllocError>
    requires options { length report.now.opt_flds ≡ 10 }
    requires small { n < 2 ^ 23 }
    requires length { n ≡ results_size report.now segment members.now }
    ensures { IfOk result (λ o. o ≡ pdu report.now segment members.now) }
{
    let mut out = Vec::with_capacity(alloc, framed(n) as usize)?;
    put_opening(&mut out, n)?;
    put_results(alloc, &mut out, report, segment, members)?;
    Ok(Octs::from_vec(out))
}
