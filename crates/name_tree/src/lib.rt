//! The tree that the names of lines grow into: names with the same front are one structure (IEC 61850-8-1, the names of data).
#![tactic(auto)]

// names with the same front, together
mod grouping;
mod growing;

pub use growing::{Cut, behind, front};

// the nodes of the tree, and the longest value of a type
mod growth;
pub mod largest;

pub use growth::{Grown, Growth, Spot, grow};

// what a name finds
mod directories;
mod finding;

pub use directories::{Directory, NodeName, directory_of};
pub use finding::{item_at, member_of, number_of};

// its rows: nodes by their numbers, their attributes, and what stands at them
mod attrs;
mod rows;
mod stands;

pub use attrs::attrs_of;
pub use rows::push_nodes;
pub use stands::{Stand, between, push_stands};
