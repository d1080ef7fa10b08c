//! Copies of configurations, definition by definition, and of values.
#![tactic(auto)]

mod copies;
mod values;

pub use copies::copy_config;
pub use values::copy_value;
