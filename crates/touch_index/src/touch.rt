//! What an attribute touches: members of the data sets of report blocks.

use sv_base::{AttrId, BlockNo, MemberNo};

/// An attribute that a member of a report block's data set holds (IEC 61850-7-2, DATA-SET). Members are numbered from 1.
#[derive(Clone, Copy, Debug, PartialEq, Eq)]
pub struct Touch {
    pub attr: AttrId,
    pub block: BlockNo,
    pub member: MemberNo,
}

/// Where the touches of an attribute lie among all: from `start`, before `end`.
#[derive(Clone, Copy, Debug)]
pub(crate) struct Row {
    pub(crate) start: usize,
    pub(crate) end: usize,
}
