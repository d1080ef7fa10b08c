//! The reading of a rehearsal's input, line by line, to what it comes to.
#![tactic(auto)]

// what an input comes to
mod plan;

// the lines among scripts
mod next;
mod scripting;

// the lines before them
mod openings;
mod starting;

// the whole input
mod reading;
mod session;
mod stage;

pub use plan::Plan;
pub use reading::read_rehearsal;
pub use scripting::MOST_SCRIPTS;
