//! The buffer of a report control block: its retained entries, in memory that is made at once (IEC 61850-7-2, the buffer of a
//! BRCB).
#![tactic(auto)]

mod entry;
mod laws;
mod places;
mod ring;
mod room;

// the buffer, and an entry of it
pub use entry::Entry;
pub use ring::Ring;

// its law
pub use laws::retained_entries_are_held;
