//! The lines of a configuration: what each says, and what those before a line say of it; the references that they take, and
//! the nodes and the configuration that they make.
//!
//! The definitions in `specs/` are those on which the reading, the format and the writing of configurations agree.
#![tactic(auto)]

mod keys;
mod leaf;
mod line;
mod references;

// a line, and where it may stand
pub use line::{Line, Place};

// references, and sets of them
pub use keys::{Keys, Names};
pub use references::{
    below, control_keys, group_key, item_key, node_item, node_key, put_item_key, put_node_key,
};

// a node without parts
pub use leaf::Leaf;
