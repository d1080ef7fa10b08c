//! The steps of a record: what a line asks of a bay, with names looked up in its model and values read.
#![tactic(auto)]

// what a line says: a step in a slot that is lent, the parts of a piece, or the first cause for which there is none
mod telling;

pub use telling::{Told, association, tell};

// what an association is, what a line makes of it, and what all of them are by their numbers
mod form;
mod forms;

pub use form::Form;
pub use forms::Forms;

// the streams of associations on the wire
mod heard;
mod stream;

pub use heard::Heard;
