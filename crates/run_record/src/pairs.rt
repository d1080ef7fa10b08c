//! The pairs of a line `set`.

use sv_base::{List, Octs};

/// The reference of an attribute, and the value that it is set to, both as texts.
#[derive(Debug, Drop)]
pub struct Pair {
    pub name: Octs,
    pub value: Octs,
}

/// The pairs of one line, in order.
pub type Pairs = List<Pair>;
