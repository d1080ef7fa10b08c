//! Scripts of actors, and what comes of them in a history: the answers to each one's steps, and all of them in the history's order.
//!
//! It knows no thread and no text.
#![tactic(auto)]

// scripts, and what comes of them
mod made;
mod part;
mod script;

// the parts become one list, in the order of places
mod merging;

pub use made::Made;
pub use merging::merge;
pub use part::{Part, Reply};
pub use script::{Actor, Script, TimedStep};
