//! Rehearsals: scripts race over one bay, and what they made is written as a record with its answers.
#![tactic(auto)]

// the whole
mod rehearsal;

pub use rehearsal::{rehearse, rehearse_gated};

// how it ends
mod laws;

pub use laws::endings_are_known;
