//! The note of a point for a block: the members of its data set that the point is an event of, and why (IEC 61850-7-2,
//! TriggerConditions, TrgOps and ReasonForInclusion).
#![tactic(auto)]

mod laws;
mod triggers;

// what is noted of a point's changes
pub use triggers::{note, reasons_by};

// its law
pub use laws::notes_are_the_definition;
