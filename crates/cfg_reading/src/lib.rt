//! The lines of a configuration that were read, what is kept of them for the next, and the configuration that they make.
#![tactic(auto)]

mod claiming;
mod draft;
mod known_lines;
mod reading;

pub use known_lines::Counts;
pub use reading::Reading;
