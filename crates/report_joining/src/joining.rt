//! Reports joined of their segments.

ghost use Rattle.std.specs.Prelude.{◌≡◌, ◌↔◌, ◌++◌, Some, IsTrue, IfOk};
ghost use Rattle.report_joining.specs.Joining.{IsNext, Joins, whole_or_more};
ghost use Rattle.report_joining.specs.declared.joining.JoinFault.TheVariants.{Memory};

use crate::agreeing::{agrees, are_below};
use bay_model::{Members, Report};
use report_cut::ReportPart;
use std::alloc::AllocError;

/// A report of which further segments follow.
#[derive(Drop)]
pub struct Begun {
    /// The report with the members that have come.
    pub report: Report,
    /// SubSqNum of the segment that is awaited.
    pub next: u64,
}

/// What a PDU of a report comes to, after those before it.
#[derive(Drop)]
pub enum Joined {
    /// The report is whole.
    Whole(Report),
    /// Further segments of it follow.
    More(Begun),
}

/// Why a PDU of a report isn't taken.
#[derive(Clone, Copy, Debug, PartialEq, Eq)]
pub enum JoinFault {
    /// It isn't the next segment of the report that was begun, or, where none was, it isn't a first one.
    Broken,
    /// There was no memory.
    Memory,
}

impl From<AllocError> for JoinFault {
    ghost from_gives = { λ _ e. e ≡ Memory };

    fn from(_e: AllocError) -> JoinFault {
        JoinFault::Memory
    }
}

/// The report with the segments up to this number: whole unless more follow.
fn join_up_to(report: Report, sub: u32, more: bool) -> Joined
    ensures { result ≡ whole_or_more report sub more }
{
    if more {
        let next = u64::from(sub) + 1;
        Joined::More(Begun { report, next })
    } else {
        Joined::Whole(report)
    }
}

/// The segment is the one that is awaited.
fn is_next(begun: &Begun, part: &ReportPart) -> bool
    ensures { IsTrue result ↔ IsNext (Some begun.now) part.now }
{
    begun.next == u64::from(part.sub)
        && agrees(&begun.report, &part.report)
        && are_below(
            begun.report.members.as_slice(),
            part.report.members.as_slice(),
        )
}

/// The report with the members of a segment after its own.
fn with_members(report: Report, members: Members) -> Result<Report, AllocError>
    ensures { IfOk result (λ r. r ≡ record report { members = report.members ++ members }) }
{
    let mut all = report.members.into_vec();
    let mut more = members.into_vec();
    all.append(&mut more)?;
    Ok(Report {
        block: report.block,
        rpt_id: report.rpt_id,
        opt_flds: report.opt_flds,
        sq: report.sq,
        time: report.time,
        dat_set: report.dat_set,
        ovfl: report.ovfl,
        id: report.id,
        conf_rev: report.conf_rev,
        total: report.total,
        members: Members::from_vec(all),
    })
}

/// Takes the next PDU of a report: where one was begun its next segment, else a report that is sent in one PDU or the first
/// segment of one.
///
/// A segment is the next one of a report where SubSqNum is the number that follows, the other fields are the same, and its
/// members have greater numbers than those before. Fails with `Broken` exactly where it isn't, and with `Memory`.
pub fn join(begun: Option<Begun>, part: ReportPart) -> Result<Joined, JoinFault>
    ensures { Joins begun part result }
{
    let Some(begun) = begun else {
        if part.sub != 0 {
            return Err(JoinFault::Broken);
        }
        return Ok(join_up_to(part.report, part.sub, part.more));
    };
    if !is_next(&begun, &part) {
        return Err(JoinFault::Broken);
    }
    let ReportPart { report, sub, more } = part;
    let report = with_members(begun.report, report.members)?;
    Ok(join_up_to(report, sub, more))
}
