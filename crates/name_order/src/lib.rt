//! The order of names (ISO 9506-2, GetNameList): ascending by their octets, and those after a name.
#![tactic(auto)]

mod sorting;

pub use sorting::{in_order, name_at, names_after, names_after_at, places_in_order, sorted};
