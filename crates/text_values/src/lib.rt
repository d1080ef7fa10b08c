//! What the values that texts spell have to do with the values that a bay holds.
#![tactic(auto)]

mod laws;

pub use laws::values_are_of_their_types;
