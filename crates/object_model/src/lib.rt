//! The model of a configuration: its nodes, attributes, blocks and controls by their numbers, and what finds them.
#![tactic(auto)]

// its nodes, domain by domain, and its tables
mod growing;
mod listing;
mod runs;
mod tables;

// the model, and the names that a data set may have
mod laws;
mod model;
mod set_names;

pub use laws::{models_cross_threads, names_find_their_nodes, rows_are_the_nodes};
pub use model::Model;
pub use name_leaves::{Leaf, What};
pub use object_names::domains;
pub use set_names::is_set_name;
