//! The text that is written for a configuration.
#![tactic(auto)]

mod spelling;
mod writing;

pub use writing::written_text;
