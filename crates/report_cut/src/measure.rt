//! How many octets the fields and the members of a report take, before they are written (ITU-T X.690, 8.1).

ghost use Rattle.std.specs.Prelude.{◌≡◌, ◌+◌, ◌≤◌, ◌<◌, ◌^◌, length};
ghost use Rattle.bay_model.specs.Parameters.{bit as bit_at};
ghost use Rattle.ber_write.specs.Minimal.{uint_octets, element_size};
ghost use Rattle.report_cut.specs.Fields.{identity, first_fields, further_fields, place, front};
ghost use Rattle.report_cut.specs.Sizes.{size_if as if_asked, cost, inclusion_size, fixed_size};
ghost use Rattle.report_cut.specs.Sizes.{framed as framed_of};

use crate::segment::Segment;
use bay_model::{Member, Report};
use ber_write::{length_of, uint_len};
use sv_base::{Bits, Octs};

/// A bit of OptFlds.
pub(crate) fn bit(opts: &Bits, i: usize) -> bool
    ensures { result ≡ bit_at i opts.now }
{
    opts.get(i).unwrap_or(false)
}

/// How many octets an element has whose content has that many.
#[tactic(auto, unfolding(ber_write::specs::Minimal::element_size), using(ber_write::proofs::LengthLaws::at_most_five))]
pub(crate) fn element_len(n: u32) -> u32
    requires { n < 2 ^ 24 }
    ensures value { result ≡ element_size n }
    ensures few { result ≤ n + 6 }
{
    1 + length_of(n) + n
}

fn uint_element_len(n: u64) -> u32
    ensures value { result ≡ element_size (length (uint_octets n)) }
    ensures few { result ≤ 15 }
{
    element_len(uint_len(n))
}

fn octs_len(octets: &Octs) -> u32
    requires { length octets.now < 2 ^ 24 }
    ensures value { result ≡ element_size (length octets.now) }
    ensures few { result ≤ length octets.now + 6 }
{
    element_len(octets.len() as u32)
}

fn size_if(asked: bool, n: u32) -> u32
    ensures value { result ≡ if_asked asked n }
    ensures few { result ≤ n }
{
    if asked { n } else { 0 }
}

#[tactic(auto, using(crate::proofs::SizeLaws::length_of_identity))]
fn identity_len(report: &Report, segment: Option<Segment>) -> u32
    requires options { length report.now.opt_flds ≡ 10 }
    requires rpt_id { length report.now.rpt_id ≤ 129 }
    ensures value { result ≡ length (identity report.now.rpt_id report.now.opt_flds segment) }
    ensures few { result ≤ 140 }
{
    octs_len(&report.rpt_id) + 5
}

#[tactic(auto, using(crate::proofs::SizeLaws::length_of_first_fields))]
fn first_len(report: &Report) -> u32
    requires { length report.now.dat_set ≤ 129 }
    ensures value { result ≡ length
        (first_fields report.now.opt_flds report.now.sq report.now.time report.now.dat_set) }
    ensures few { result ≤ 158 }
{
    let sq = size_if(bit(&report.opt_flds, 1), uint_element_len(report.sq as u64));
    let time = size_if(bit(&report.opt_flds, 2), 8);
    let dat_set = size_if(bit(&report.opt_flds, 4), octs_len(&report.dat_set));
    sq + time + dat_set
}

#[tactic(auto, using(crate::proofs::SizeLaws::length_of_further_fields))]
fn further_len(report: &Report) -> u32
    ensures value { result ≡ length
        (further_fields report.now.opt_flds report.now.ovfl report.now.id report.now.conf_rev) }
    ensures few { result ≤ 28 }
{
    let ovfl = size_if(bit(&report.opt_flds, 6), 3);
    let id = size_if(bit(&report.opt_flds, 7), 10);
    let conf_rev = size_if(
        bit(&report.opt_flds, 8),
        uint_element_len(report.conf_rev as u64),
    );
    ovfl + id + conf_rev
}

#[tactic(auto, using(crate::proofs::SizeLaws::length_of_place))]
fn place_len(segment: Option<Segment>) -> u32
    ensures value { result ≡ length (place segment) }
    ensures few { result ≤ 18 }
{
    match segment {
        None => 0,
        Some(s) => uint_element_len(s.sub as u64) + 3,
    }
}

/// How many octets the results of a PDU without its members have.
#[tactic(auto, using(crate::proofs::SizeLaws::length_of_front))]
pub(crate) fn fixed_len(report: &Report, segment: Option<Segment>) -> u32
    requires options { length report.now.opt_flds ≡ 10 }
    requires rpt_id { length report.now.rpt_id ≤ 129 }
    requires dat_set { length report.now.dat_set ≤ 129 }
    requires total { report.now.total ≤ 256 }
    ensures value { result ≡ fixed_size report.now segment }
    ensures few { result ≤ 400 }
{
    let front = identity_len(report, segment)
        + first_len(report)
        + further_len(report)
        + place_len(segment);
    front + element_len((report.total + 7) / 8 + 1)
}

/// How many octets a member adds to the results.
#[tactic(auto, unfolding(crate::specs::Sizes::cost))]
pub(crate) fn cost_of(opts: &Bits, member: &Member) -> u32
    requires reference { length member.now.reference ≤ 129 }
    requires octets { length member.now.octets ≤ 500 }
    ensures value { result ≡ cost opts.now member.now }
    ensures few { result ≤ 640 }
{
    let reference = size_if(bit(opts, 5), octs_len(&member.reference));
    let reasons = size_if(bit(opts, 3), 4);
    reference + member.octets.len() as u32 + reasons
}

/// How many octets the PDU round n octets of results has.
#[tactic(auto, unfolding(crate::specs::Sizes::framed))]
pub(crate) fn framed(n: u32) -> u32
    requires { n < 2 ^ 23 }
    ensures value { result ≡ framed_of n }
    ensures few { result < 2 ^ 24 }
{
    element_len(element_len(7 + element_len(n)))
}
