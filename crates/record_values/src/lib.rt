//! The values of a record's lines: those that clients write, and those that the process sets.
#![tactic(auto)]

mod settings;
mod shapes;

pub use settings::{Found, settings_of};
pub use shapes::shape;
