//! Which members of the data sets of report blocks hold an attribute (IEC 61850-7-2, DATA-SET), so that a step visits the
//! blocks and the members that it touches and no others.
#![tactic(auto)]

// the touches of an attribute, and where they lie
mod spread;
mod touch;
mod touches;

// the index of all blocks, and the note that it gives
mod filling;
mod gathering;
mod index;
mod laws;
mod notes;

pub use filling::Filling;
pub use index::Index;
pub use notes::Notes;
pub use touch::Touch;

// what is gathered is the note of the definition
pub use laws::{apart_blocks_are_quiet, distinct_changes_are_once, gathered_are_noted};
