//! A configuration's text is read line by line up to `end`, and what the lines name is looked up, to the first line that is
//! refused.
#![tactic(auto)]

mod contents;
mod fault;
mod judging;
mod keyword;
mod lines;
mod looking;
mod telling;

// the lines of a text
pub use lines::read_lines;

// the configuration of a text
pub use looking::read_config;

// why a text is no configuration
pub use fault::{CfgFault, Kind};
