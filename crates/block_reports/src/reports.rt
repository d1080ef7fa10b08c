//! The report of an entry (IEC 61850-7-2, the Report service).

ghost use Rattle.std.specs.Prelude.{◌≡◌, ◌≤◌, ◌+◌, ◌++◌, List, map, length, vec_capacity, IfOk};
ghost use Rattle.bay_model.specs.Named.{configured_model};
ghost use Rattle.bay_model.specs.Model.{Model as Bay};
ghost use Rattle.bay_model.specs.Notes.{Kept};
ghost use Rattle.bay_model.specs.Reports.{member_of};
ghost use Rattle.set_view.specs.Shapes.{node_numbers};
ghost use Rattle.report_block.specs.Offers.{offered};
ghost use Rattle.block_reports.specs.Again.{AreKept, AreNodes, reported};
ghost use Rattle.block_reports.specs.Reporting.{AreTextsOf, report_by};

use crate::members::members_of;
use crate::spare::copied_into;
use bay_model::{Members, Report};
use entry_ring::Entry;
use object_model::Model;
use report_block::{Offer, ReportBlock};
use set_view::SetView;
use std::alloc::{AllocError, Global};
use sv_base::{Bits, BlockNo, Octs};

/// The octets of an entry in one row.
fn whole_of(alloc: Global, entry: &Entry<'_>) -> Result<Vec<u8>, AllocError>
    ensures { IfOk result (λ v. v.items ≡ entry.now.first.now ++ entry.now.second.now) }
{
    let octets = Vec::with_capacity(alloc, entry.first.len() + entry.second.len())?;
    Ok(joined_in(octets, entry))
}

/// The octets of an entry in one row, in memory that is there. Where that is enough it takes no memory.
pub(crate) fn joined_in(room: Vec<u8>, entry: &Entry<'_>) -> Vec<u8>
    ensures { length entry.now.first.now + length entry.now.second.now ≤ vec_capacity room
        → result.items ≡ entry.now.first.now ++ entry.now.second.now }
{
    let mut octets = room;
    octets.clear();
    let _ = octets.extend_from_slice(entry.first);
    let _ = octets.extend_from_slice(entry.second);
    octets
}

/// The members of the report of an entry of a data set, in the memory of those of another. Octets that lie in
/// one row are read where they are.
fn members_in(
    alloc: Global,
    model: &Model,
    set: &SetView<'_>,
    entry: &Entry<'_>,
    spare: Members,
) -> Result<Members, AllocError>
    requires { AreNodes model.now set.now }
    ensures { IfOk result (λ members. (ks : List Kept)
        → AreKept (entry.now.first.now ++ entry.now.second.now) ks
        → members ≡ reported model.now set.now ks) }
{
    if entry.second.is_empty() {
        return members_of(alloc, model, set, entry.first, spare);
    }
    let octets = whole_of(alloc, entry)?;
    members_of(alloc, model, set, &octets, spare)
}

/// RptID, OptFlds and DatSet of a report.
#[derive(Drop)]
pub(crate) struct Texts {
    pub(crate) rpt_id: Vec<u8>,
    pub(crate) opt_flds: Vec<bool>,
    pub(crate) dat_set: Vec<u8>,
}

/// The report of an offer by its block and its data set, of these texts and members. It takes no memory.
pub(crate) fn report_with(
    part: &ReportBlock,
    set: &SetView<'_>,
    offer: &Offer<'_>,
    texts: Texts,
    members: Members,
) -> Report
    requires block { offer.now.block ≤ 4294967295 }
    requires few { length set.now ≤ 4294967295 }
    requires texts { AreTextsOf part.now texts }
    ensures report { (c : Bay) (ks : List Kept)
        → members ≡ map (member_of c (node_numbers set.now)) ks
        → result ≡ report_by c set.now part.now (offered offer.now) ks }
    ensures members { result.members ≡ members }
{
    Report {
        block: BlockNo(offer.block as u32),
        rpt_id: Octs::from_vec(texts.rpt_id),
        opt_flds: Bits::from_vec(texts.opt_flds),
        sq: offer.next.sq,
        time: offer.entry.moment,
        dat_set: Octs::from_vec(texts.dat_set),
        ovfl: offer.next.ovfl,
        id: offer.next.id,
        conf_rev: part.conf_rev(),
        total: set.len() as u32,
        members,
    }
}

/// The report of an offer by its block and its data set, whose nodes are the model's, in the memory of another report.
pub fn report_of(
    alloc: Global,
    model: &Model,
    part: &ReportBlock,
    set: &SetView<'_>,
    offer: &Offer<'_>,
    spare: Report,
) -> Result<Report, AllocError>
    requires block { offer.now.block ≤ 4294967295 }
    requires few { length set.now ≤ 4294967295 }
    requires nodes { AreNodes model.now set.now }
    ensures { IfOk result (λ r. (ks : List Kept) → AreKept (offered offer.now).entry.kept ks
        → r ≡ report_by (configured_model model.now) set.now part.now (offered offer.now) ks) }
{
    let members = members_in(alloc, model, set, &offer.entry, spare.members)?;
    let texts = Texts {
        rpt_id: copied_into(spare.rpt_id.into_vec(), part.report_id())?,
        opt_flds: copied_into(spare.opt_flds.into_vec(), part.opt_flds())?,
        dat_set: copied_into(spare.dat_set.into_vec(), part.dat_set())?,
    };
    Ok(report_with(part, set, offer, texts, members))
}
