//! Reads of nodes: one call for attributes, blocks, controls and setting groups, by what their leaves read as.
#![tactic(auto)]

mod build;
mod laws;
mod read;

pub use laws::{reads_are_of_leaves, reads_are_the_models};
pub use read::{LeafValues, read_node, read_type};
