//! Rows of octets.

use std::marker::Model;

/// A row of octets, seen by contracts as the list of them.
#[derive(Debug, Drop)]
pub struct Octs {
    octets: Vec<u8>,
}

impl Model for Octs {
    ghost use Rattle.std.specs.Prelude.{List, ℕ};

    ghost Value = { List ℕ };

    ghost view = { λ o. o.octets.items };
}

impl Octs {
    ghost use Rattle.std.specs.Prelude.{◌≡◌, ◌==◌, length, slice_get};

    /// The row of these octets. It takes no memory.
    pub fn from_vec(octets: Vec<u8>) -> Self
        ensures { result ≡ octets.items }
    {
        Octs { octets }
    }

    /// The octets. It takes no memory.
    pub fn into_vec(self) -> Vec<u8>
        ensures { result.items ≡ self }
    {
        self.octets
    }

    /// How many octets there are.
    pub fn len(&self) -> usize
        ensures { result ≡ length self.now }
    {
        self.octets.len()
    }

    /// There is no octet.
    pub fn is_empty(&self) -> bool
        ensures { result ≡ (length self.now == 0) }
    {
        self.octets.is_empty()
    }

    /// The octet at a place, counted from 0; none exactly where the row is no longer than that.
    pub fn get(&self, i: usize) -> Option<u8>
        ensures { result ≡ slice_get self.now i }
    {
        self.octets.get(i).copied()
    }

    /// The octets, borrowed.
    pub fn as_slice(&self) -> &[u8]
        ensures { result.now ≡ self.now }
    {
        &self.octets
    }
}
