//! The nodes that the lines of a configuration name, and those of its model: one tree of names.
//!
//! The functions here run nothing: their contracts are the laws.
#![tactic(auto)]

mod laws;

pub use laws::{nodes_are_those_of_the_model, sets_are_those_of_the_model};
