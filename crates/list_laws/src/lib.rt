//! Laws of lists, places and options that several crates prove with. They stand in `proofs/`, and have no code.
#![tactic(auto)]

mod laws;

pub use laws::{a_name_more, an_element_is_set};
