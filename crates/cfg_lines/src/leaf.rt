//! The nodes without parts.

use sv_base::Octs;

/// A node without parts that may be in a data set, by its reference, and the most octets of its Data.
#[derive(Drop)]
pub struct Leaf {
    pub name: Octs,
    pub octets: u32,
}
