//! Reports of a block's entries (IEC 61850-7-2, the Report service and its report format).

use sv_base::{Bits, BlockNo, List, MemberNo, Moment, Octs};

/// Why a member stands in a report (IEC 61850-7-2, ReasonForInclusion).
#[derive(Clone, Copy, Debug)]
pub struct Reasons {
    /// data-change: an attribute with the flag dchg was changed
    pub dchg: bool,
    /// quality-change: an attribute with the flag qchg was changed
    pub qchg: bool,
    /// data-update: an attribute with the flag dupd was set
    pub dupd: bool,
    /// integrity: a period ended
    pub intg: bool,
    /// general interrogation: a client asked for all members
    pub gi: bool,
}

impl Reasons {
    ghost use Rattle.std.specs.Prelude.{◌≡◌};
    ghost use Rattle.bay_model.specs.Notes.{union as union_of, is_any as is_any_of};

    /// The reasons of both.
    pub fn union(self, other: Reasons) -> Reasons
        ensures { result ≡ union_of self other }
    {
        Reasons {
            dchg: self.dchg || other.dchg,
            qchg: self.qchg || other.qchg,
            dupd: self.dupd || other.dupd,
            intg: self.intg || other.intg,
            gi: self.gi || other.gi,
        }
    }

    /// There is a reason.
    pub fn is_any(self) -> bool
        ensures { result ≡ is_any_of self }
    {
        self.dchg || self.qchg || self.dupd || self.intg || self.gi
    }
}

/// A member of a report: its number in the data set, from 1, its reference, its MMS Data and its reasons.
#[derive(Drop)]
pub struct Member {
    pub number: MemberNo,
    pub reference: Octs,
    pub octets: Octs,
    pub reasons: Reasons,
}

/// The members of a report, in the order of the data set.
pub type Members = List<Member>;

/// A report of one entry of a block (IEC 61850-7-2, the report format).
#[derive(Drop)]
pub struct Report {
    pub block: BlockNo,
    pub rpt_id: Octs,
    pub opt_flds: Bits,
    /// SqNum
    pub sq: u16,
    /// TimeofEntry
    pub time: Moment,
    pub dat_set: Octs,
    /// BufOvfl
    pub ovfl: bool,
    /// EntryID
    pub id: u64,
    pub conf_rev: u32,
    /// how many members the data set has
    pub total: u32,
    /// those that the entry has
    pub members: Members,
}
