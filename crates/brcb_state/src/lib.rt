//! One buffered report control block, without its entries: its attributes, who has enabled it, and where its reports stand
//! (IEC 61850-7-2, BUFFERED-REPORT-CONTROL-BLOCK).
#![tactic(auto)]

mod block;
mod laws;
mod option_writes;
mod options;
mod reads;
mod reservation;
mod told;
mod writers;
mod writes;

// a block, and what it is told of its entries
pub use block::Block;
pub use told::{Effect, Next, Retained};

// its laws
pub use laws::{
    blocks_stand, components_are_read, effects_are_told, next_reports_are_told, writes_are_answered,
};
