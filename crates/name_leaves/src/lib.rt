//! What stands at the names of a node tree, and at their ends (IEC 61850-8-1, the names of data attributes, of control blocks and
//! of controls); the texts that names are joined of; and names by their places.
#![tactic(auto)]

// what stands at a name, and at its end
mod leaves;
mod what;

// the texts of names, and which names a control has
mod selecting;
mod texts;

// numbers by name
mod hashing;
mod numbers;
mod places;

pub use leaves::{Leaf, own_leaf};
pub use numbers::{count, plus};
pub use places::Places;
pub use selecting::is_selected;
pub use texts::{extend_item, item_at, joined};
pub use what::What;
