//! A buffered report control block as one part: its attributes, its buffer, what it gathers under its buffer time, and
//! which of its entries is reported next (IEC 61850-7-2, BRCB).
#![tactic(auto)]

// the block, and the octets that it keeps of an entry
mod block;
mod entry_octets;

// what time, events and writes make of it
mod components;
mod events;
mod time;
mod time_laws;

// what its components read
mod reading;

// what it stands for, and which entry is reported next
mod laws;
mod offers;

pub use block::ReportBlock;
pub use components::Written;
pub use events::EventRoom;
pub use offers::{Offer, first_offer};
pub use time::earliest;

// what a block stands for
pub use laws::report_blocks_stand;
pub use time_laws::{calls_are_what_comes, nothing_comes_early};
