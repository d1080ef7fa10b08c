//! A report in memory that was allocated before, so that to fill it takes no memory (IEC 61850-7-2, the Report service).

ghost use Rattle.std.specs.List.{All};
ghost use Rattle.std.specs.Prelude.{◌≡◌, ◌≤◌, ◌+◌, ◌*◌, ◌++◌, [], List, length, vec_capacity};
ghost use Rattle.bay_model.specs.Named.{configured_model};
ghost use Rattle.bay_model.specs.Notes.{Kept};
ghost use Rattle.block_reports.specs.Again.{AreNodes, reported};
ghost use Rattle.block_reports.specs.Blanks.{longest_text_in, AreShortTexts, IsShortSet, AreFew};

use crate::member_rooms::{Rooms, Row};
use crate::reports::{Texts, joined_in, report_with};
use crate::spare::{copied_in, emptied, empty_report};
use bay_model::{Members, Report};
use entry_ring::Entry;
use object_model::Model;
use report_block::{Offer, ReportBlock};
use set_view::SetView;
use std::alloc::{AllocError, Global};
use sv_base::{Bits, Octs};

/// How many octets the longest RptID or DatSet in the reports of blocks has.
pub fn longest_text(parts: &[ReportBlock]) -> usize
    ensures exact { result ≡ longest_text_in parts.now }
    ensures short { All (AreShortTexts result) parts.now }
{
    let mut most = 0;
    for part in parts {
        let texts = part.report_id().len().max(part.dat_set().len());
        most = texts.max(most);
    }
    most
}

/// The members of the report of an entry of a data set, in memory that is there, and the memory that is left. It takes no memory. Of an
/// entry of more members than fit no more is said than that no buffer is lost.
fn members_in(
    row: Row,
    room: Vec<u8>,
    model: &Model,
    set: &SetView<'_>,
    entry: &Entry<'_>,
) -> (Members, Rooms)
    requires empty { row.items ≡ [] }
    requires room { 504 * row.left ≤ vec_capacity room }
    requires nodes { AreNodes model.now set.now }
    requires short { IsShortSet (configured_model model.now) set.now }
    ensures members { (ks : List Kept)
        → AreFew row.left (entry.now.first.now ++ entry.now.second.now) ks
        → result.0 ≡ reported model.now set.now ks }
    ensures rooms { length result.0 + result.1 ≡ row.left }
{
    let joined = joined_in(room, entry);
    let (members, free) = row.filled(model, set, &joined);
    (members, Rooms { free, joined })
}

/// Memory for a report: its texts, its members, and the octets of its entry in one row.
#[derive(Drop)]
pub struct Blank {
    texts: usize,
    rpt_id: Vec<u8>,
    opt_flds: Vec<bool>,
    dat_set: Vec<u8>,
    row: Row,
    joined: Vec<u8>,
}

impl std::marker::Model for Blank {
    ghost use Rattle.std.specs.Prelude.{◌≡◌, ◌≤◌, ◌*◌, [], vec_capacity};
    ghost use Rattle.block_reports.specs.Blanks.{Blank};

    ghost Value = { Blank };

    ghost view = { λ b. record { texts = b.texts; members = b.row.left } };

    ghost invariant = { λ b. (b.texts ≤ vec_capacity b.rpt_id) × (10 ≤ vec_capacity b.opt_flds)
        × (b.texts ≤ vec_capacity b.dat_set)
        × (b.row.items ≡ []) × (504 * b.row.left ≤ vec_capacity b.joined) };
}

impl Blank {
    ghost use Rattle.std.specs.Prelude.{◌≡◌, ◌≤◌, ◌+◌, List, length, IfOk};
    ghost use Rattle.bay_model.specs.Named.{configured_model};
    ghost use Rattle.bay_model.specs.Notes.{Kept};
    ghost use Rattle.block_reports.specs.Again.{AreNodes};
    ghost use Rattle.block_reports.specs.Blanks.{AreShortTexts, IsShortSet, AreFew};
    ghost use Rattle.report_block.specs.Offers.{offered};
    ghost use Rattle.block_reports.specs.Reporting.{report_by};

    /// Memory for a report whose RptID and DatSet have at most `texts` octets each, of at most `most` members, 0 to 256, each with a
    /// reference of at most 129 octets and Data of at most 500. It is made of buffers and of the memory of another report; only what
    /// these lack is taken.
    pub fn open(
        alloc: Global,
        rooms: Rooms,
        spare: Report,
        texts: usize,
        most: u32,
    ) -> Result<Blank, AllocError>
        requires few { most ≤ 256 }
        ensures { IfOk result (λ b. b ≡ record { texts = texts; members = most }) }
    {
        let most = most as usize;
        Ok(Blank {
            texts,
            rpt_id: emptied(spare.rpt_id.into_vec(), texts)?,
            opt_flds: emptied(spare.opt_flds.into_vec(), 10)?,
            dat_set: emptied(spare.dat_set.into_vec(), texts)?,
            row: Row::open(alloc, rooms.free, spare.members, most)?,
            joined: emptied(rooms.joined, 504 * most)?,
        })
    }

    /// Its memory, where no report is to be filled: that of a report with nothing in it, and the buffers. It takes no memory.
    pub fn unused(self, alloc: Global) -> (Report, Rooms)
        ensures { result.1 ≡ self.members }
    {
        let (members, free) = self.row.into_parts();
        let mut report = empty_report(alloc);
        report.rpt_id = Octs::from_vec(self.rpt_id);
        report.opt_flds = Bits::from_vec(self.opt_flds);
        report.dat_set = Octs::from_vec(self.dat_set);
        report.members = members;
        let joined = self.joined;
        (report, Rooms { free, joined })
    }

    /// The report of an offer by its block and its data set, whose nodes are the model's, and the memory that is left. It takes no
    /// memory. Of an entry of more members than fit no more is said than that no buffer is lost.
    pub fn filled(
        self,
        model: &Model,
        part: &ReportBlock,
        set: &SetView<'_>,
        offer: &Offer<'_>,
    ) -> (Report, Rooms)
        requires block { offer.now.block ≤ 4294967295 }
        requires few { length set.now ≤ 4294967295 }
        requires nodes { AreNodes model.now set.now }
        requires short { IsShortSet (configured_model model.now) set.now }
        requires texts { AreShortTexts self.texts part.now }
        ensures report { (ks : List Kept) → AreFew self.members (offered offer.now).entry.kept ks
            → result.0 ≡ report_by (configured_model model.now) set.now part.now
            (offered offer.now) ks }
        ensures rooms { length result.0.members + result.1 ≡ self.members }
    {
        let texts = Texts {
            rpt_id: copied_in(self.rpt_id, part.report_id()),
            opt_flds: copied_in(self.opt_flds, part.opt_flds()),
            dat_set: copied_in(self.dat_set, part.dat_set()),
        };
        let (members, rooms) = members_in(self.row, self.joined, model, set, &offer.entry);
        (report_with(part, set, offer, texts, members), rooms)
    }
}
