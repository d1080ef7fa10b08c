//! The associations of a bay: which are open, by whom, and what waits to be taken for each (IEC 61850-7-2, two-party
//! application associations).
#![tactic(auto)]

mod laws;
mod seat;
mod table;
mod waiting;

// the associations, and what waits for one
pub use table::Assocs;
pub use waiting::{Ends, Full, Waiting};

// their laws
pub use laws::{associations_cross_threads, associations_stand};
