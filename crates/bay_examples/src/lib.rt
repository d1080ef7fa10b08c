//! Histories of an example bay, with what each step is answered, and trees of names: a slip in a definition is refused here.
#![tactic(auto)]

mod worked;

// names, reads and writes
pub use worked::{worked_names, worked_reads, worked_requests};

// reports of a block's entries
pub use worked::{
    worked_blocks, worked_breaks, worked_buffer, worked_holding, worked_reports,
    worked_reservations, worked_resumes,
};

// controls and setting groups
pub use worked::{worked_controls, worked_selections, worked_settings};
