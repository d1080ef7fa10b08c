//! The nodes that the lines of a configuration make, to look up what a member of a data set names.
#![tactic(auto)]

mod asked;
mod closed;
mod leaf_list;
mod leaves;
mod nodes;
mod part_names;
mod parts;
mod sizes;
mod spot;

pub use asked::{Asked, asked_of};
pub use leaf_list::Leaves;
pub use leaves::leaves_of;
pub use nodes::Nodes;
