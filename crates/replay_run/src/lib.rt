//! All that the program does with its words: a record is replayed, a configuration checked, or a record made, which may be replayed at once.
#![tactic(auto)]

pub mod check;
pub mod load;
pub mod made;
pub mod tool;
