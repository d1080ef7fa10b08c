//! Memory that is made before it is filled: octets, the Data of members, and values of attributes. Filling it takes no memory.
#![tactic(auto)]

mod fixed;
mod member_bytes;
mod slot;

// octets, and those of members
pub use fixed::Fixed;
pub use member_bytes::MemberBytes;

// values
pub use slot::{Misfit, Slot, ValueRef, are_same, fits_int, fits_uint, replace};
