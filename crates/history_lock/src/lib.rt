//! One history of the steps that several threads make: a state machine, as a bay, behind a ticket lock.
#![tactic(auto)]

// the history, and the right to make steps
mod fault;
mod history;
mod laws;

// the lock: what its seats know, its rule, and its steps
mod lock;
mod rule;
mod view;

pub use fault::TurnFault;
pub use history::{History, Pass};
pub use laws::passes_cross_threads;
pub use view::{About, Entry, Phase, View};
