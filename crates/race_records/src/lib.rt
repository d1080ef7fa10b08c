//! What came of a race of scripts: the record of the history that they made, with the answers to it, and the verdict, whether all
//! turns went, and the lowest line that met a full queue, which is known from the scripts alone.
#![tactic(auto)]

// the record and its answers are written
mod answers;
mod book;
mod record;

pub use answers::write_answers;
pub use book::{line_made, line_of};
pub use record::write_record;

// the verdict
mod verdict;

pub use verdict::{lacks_memory, lowest_full};

// the record is read back, and the verdict known
mod laws;

pub use laws::{merged_records_are_read_back, verdicts_are_known};
