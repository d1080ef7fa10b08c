//! Which segment of a report a PDU is.

/// Which segment of a report a PDU is (IEC 61850-8-1, segmentation of reports).
#[derive(Clone, Copy, Debug, PartialEq, Eq)]
pub struct Segment {
    /// SubSqNum, counted from 0
    pub sub: u32,
    /// MoreSegmentsFollow: this is not the last one
    pub more: bool,
}
