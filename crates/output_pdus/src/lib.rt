//! The PDUs of what associations take, where they have some: a test of an output, its PDUs, and their TPKTs.
#![tactic(auto)]

mod framing;
mod pdus;
mod sendable;

// the PDUs of an output, in their TPKTs, and whether a value has Data
pub use framing::tpkts_of;
pub use pdus::pdus_of;
pub use sendable::is_writable;
