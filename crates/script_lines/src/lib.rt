//! The lines of a rehearsal's scripts: where one begins and ends, and which lines of a record it may have.
//!
//! A rehearsal's input has a configuration and then scripts, each between a line `script association A` or `script process` and
//! a line `close`. Between them stand the lines of a record, of that association or of the process alone.
#![tactic(auto)]

mod laws;
mod line;
mod party;
mod reading;
mod writing;

// whose a script is, and which lines it may have
pub use party::Party;

// what a line says
pub use line::{ScriptLine, ScriptView};
pub use reading::{is_heading, view_script_line};
pub use writing::write_script_line;

// what reading and writing have to do with each other
pub use laws::script_lines_are_read_as_they_are_spelled;
