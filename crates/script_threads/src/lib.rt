//! Scripts that race as threads over one state machine, as a bay, and the one history that they make.
//!
//! Each script is an actor's: its steps at their moments, in order. It knows no text: what a line of a script is, and how an answer
//! is written, is a matter of the crates above.
#![tactic(auto)]

// passes are dealt, each actor runs in a thread of its own, and the passes are joined
mod dealing;
mod gathering;
mod job;
mod playing;
mod racing;

pub use racing::{ACTORS, Raced, race};
