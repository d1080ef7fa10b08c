//! The associations of a bay and its controls: what waits to be taken for an association, and which commands controls execute
//! (IEC 61850-7-2, the association model, the control class model and CommandTermination).
//!
//! Both stand together since a termination waits exactly while the command that it ends runs.
#![tactic(auto)]

mod heard;
mod laws;
mod queues;

// what came of the single reads and writes of a request
pub use heard::{Heard, Parts};

// the associations and the controls
pub use queues::Queues;

// their laws
pub use laws::{calls_come_to, oldest_are_taken, queues_stand, terminations_come};
