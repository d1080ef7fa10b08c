//! Rows of octets that lie one after the other, and what finds one by its octets without a copy of it.
#![tactic(auto)]

// the octets
mod rows;

// rows by their octets
mod firsts;
mod hashing;
mod index;

pub use hashing::{RowHash, hash_of};
pub use index::Index;
pub use rows::Rows;
