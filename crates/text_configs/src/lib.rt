//! What a configuration brings with it that is read from a text: a bay can serve it.
//!
//! The functions run nothing: their contracts are laws. The lemmas in `proofs/` go from the lines of a text to the tree of names,
//! and from there to the members of its data sets.
#![tactic(auto)]

mod books;
mod groups;
mod laws;

pub use books::texts_have_books;
pub use groups::texts_have_groups;
pub use laws::texts_are_served;
