//! The two sides of a client's association, over a history that others share: one writes what the association takes.
#![tactic(auto)]

// how a side ends
mod ends;

// steps of an actor at a clock's moment, and the loss of an association
mod losing;
mod making;

// a side that writes: the octets of an output, one take, and all of them
mod octets;
mod taking;
mod writing;

pub use ends::WriteEnd;
pub use writing::write_side;
