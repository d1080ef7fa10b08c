//! Whether a step fits what there is: the numbers of nodes, blocks and controls, and the types of the attributes.
#![tactic(auto)]

mod fitting;

pub use fitting::{Counts, row_at, step_fits};
