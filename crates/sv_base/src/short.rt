//! Short rows of octets.

ghost use Rattle.std.specs.Prelude.{◌≡◌, ◌≤◌, length};

use std::alloc::{AllocError, Global};
use std::marker::Model;

/// Where the octets stand: the first that many of these, or on the heap.
#[derive(Debug, Drop)]
enum Held {
    Here(u8, [u8; 30]),
    Heap(Vec<u8>),
}

/// A row of octets, seen by contracts as the list of them. Up to 30 take no memory.
#[derive(Debug, Drop)]
pub struct ShortOcts {
    octets: Held,
}

impl Model for ShortOcts {
    ghost use Rattle.std.specs.Prelude.{List, ℕ};
    ghost use Rattle.sv_base.specs.Short.{held, IsWithin};

    ghost Value = { List ℕ };

    ghost view = { λ s. held s.octets };

    ghost invariant = { λ s. IsWithin s.octets };
}

/// A row of at most 30 octets, without memory.
fn here(row: &[u8]) -> ShortOcts
    requires { length row.now ≤ 30 }
    ensures { result ≡ row.now }
{
    let mut octets = [0; 30];
    octets[..row.len()].copy_from_slice(row);
    ShortOcts {
        octets: Held::Here(row.len() as u8, octets),
    }
}

impl ShortOcts {
    ghost use Rattle.std.specs.Prelude.{◌≡◌, IfOk};

    /// These octets. Up to 30 take no memory.
    pub fn from_slice(alloc: Global, row: &[u8]) -> Result<Self, AllocError>
        ensures { IfOk result (λ s. s ≡ row.now) }
    {
        if row.len() <= 30 {
            return Ok(here(row));
        }
        Ok(ShortOcts {
            octets: Held::Heap(Vec::from_slice(alloc, row)?),
        })
    }

    /// The same octets again. Up to 30 take no memory.
    pub fn copy(&self, alloc: Global) -> Result<Self, AllocError>
        ensures { IfOk result (λ s. s ≡ self.now) }
    {
        Self::from_slice(alloc, self.as_slice())
    }

    /// The octets, borrowed.
    pub fn as_slice(&self) -> &[u8]
        ensures { result.now ≡ self.now }
    {
        match &self.octets {
            Held::Here(len, octets) => &octets[..*len as usize],
            Held::Heap(octets) => octets.as_slice(),
        }
    }
}
