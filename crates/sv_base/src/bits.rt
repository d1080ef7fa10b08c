//! Rows of bits.

use std::marker::Model;

/// A row of truth values, seen by contracts as the list of them.
#[derive(Debug, Drop)]
pub struct Bits {
    bits: Vec<bool>,
}

impl Model for Bits {
    ghost use Rattle.std.specs.Prelude.{List, Bool};

    ghost Value = { List Bool };

    ghost view = { λ b. b.bits.items };
}

impl Bits {
    ghost use Rattle.std.specs.Prelude.{◌≡◌, ◌==◌, length, slice_get};

    /// The row of these truth values. It takes no memory.
    pub fn from_vec(bits: Vec<bool>) -> Self
        ensures { result ≡ bits.items }
    {
        Bits { bits }
    }

    /// The truth values. It takes no memory.
    pub fn into_vec(self) -> Vec<bool>
        ensures { result.items ≡ self }
    {
        self.bits
    }

    /// How many truth values there are.
    pub fn len(&self) -> usize
        ensures { result ≡ length self.now }
    {
        self.bits.len()
    }

    /// There is no truth value.
    pub fn is_empty(&self) -> bool
        ensures { result ≡ (length self.now == 0) }
    {
        self.bits.is_empty()
    }

    /// The truth value at a place, counted from 0; none exactly where the row is no longer than that.
    pub fn get(&self, i: usize) -> Option<bool>
        ensures { result ≡ slice_get self.now i }
    {
        self.bits.get(i).copied()
    }

    /// The truth values, borrowed.
    pub fn as_slice(&self) -> &[bool]
        ensures { result.now ≡ self.now }
    {
        &self.bits
    }
}
