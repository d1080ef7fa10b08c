//! Scripts that race as threads over one bay.
#![tactic(auto)]

mod race;

pub use race::race_over;
