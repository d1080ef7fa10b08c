//! What a record comes to: its history, the text of that, what each of its lines does, its status, and what is written to it.
#![tactic(auto)]

// how the reading of a record ends, as every run of the program
pub mod status;

// how long a record may be
pub mod limits;

// what stands before the steps: the lines up to `record 1`
pub mod openings;

// the lines of a configuration
pub mod configuring;

// laws: of the history of a record, of what is answered to it, of whole records, and of lines that are written
mod histories;
pub mod laws;
mod whole;
mod written;

pub use histories::{record_fronts, records_resume};
pub use whole::whole_records_are_read_to_their_end;
pub use written::written_lines_are_read_back;
