//! The shapes in which associations are answered.

use osi_stack::Line;

/// How an association is answered.
#[derive(Clone, Copy, Debug, PartialEq, Eq)]
pub enum Shape {
    /// By lines that say what it takes.
    Direct,
    /// By MMS PDUs (ISO 9506-2) of at most n octets, 1024 to 65000.
    Mms(u32),
    /// By MMS PDUs in frames on this line.
    Wire(Line),
}
