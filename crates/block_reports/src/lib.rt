//! The reports of a buffered report control block (IEC 61850-7-2, the Report service): made of what the block keeps of an entry, in
//! the memory of another report or in memory that was allocated before.
#![tactic(auto)]

// the members that a report has of an entry's octets, and the report whose memory is used again
mod members;
mod reports;
mod spare;

// a report in memory that was allocated before
mod blank;
mod member_rooms;

pub use blank::{Blank, longest_text};
pub use member_rooms::Rooms;
pub use reports::report_of;
pub use spare::empty_report;
