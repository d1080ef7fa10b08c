//! Trigger conditions, and what a point did to an attribute.

use sv_base::AttrId;

/// The trigger conditions of an attribute (IEC 61850-7-2, TriggerConditions): a change of its data, a change of its
/// quality, an update.
#[derive(Clone, Copy, Debug, PartialEq, Eq)]
pub struct Flags {
    pub dchg: bool,
    pub qchg: bool,
    pub dupd: bool,
}

/// What a report block reports (IEC 61850-7-2, TrgOps).
#[derive(Clone, Copy, Debug, PartialEq, Eq)]
pub struct Trg {
    pub dchg: bool,
    pub qchg: bool,
    pub dupd: bool,
    pub intg: bool,
    pub gi: bool,
}

/// An attribute that a point set, and whether its value differs from the one before the point.
#[derive(Clone, Copy, Debug, PartialEq, Eq)]
pub struct Change {
    pub attr: AttrId,
    pub flags: Flags,
    pub differs: bool,
}
