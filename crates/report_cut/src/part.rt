//! What one PDU of a report says.

use bay_model::Report;

/// What one PDU of a report says (IEC 61850-8-1, mapping of the Report service): its fields, and its own members. A field
/// that OptFlds left out is 0, FALSE or empty, a left-out time the least moment, and the block is number 0.
#[derive(Drop)]
pub struct ReportPart {
    pub report: Report,
    /// SubSqNum; 0 where the report isn't segmented
    pub sub: u32,
    /// MoreSegmentsFollow; false where the report isn't segmented
    pub more: bool,
}
