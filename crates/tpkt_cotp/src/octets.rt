//! Octets that are gathered: a TPKT that is not whole, and an open TSDU.

use std::alloc::{AllocError, Global};
use std::marker::Model;

/// Octets that were gathered, seen by contracts as the list of them. It takes memory only with the first octet.
#[derive(Debug, Drop)]
pub struct Gathered {
    octets: Option<Vec<u8>>,
}

impl Model for Gathered {
    ghost use Rattle.std.specs.Prelude.{List, ℕ, []};
    ghost use Rattle.std.specs.Option.{option_map, unwrap_or};

    ghost Value = { List ℕ };

    ghost view = { λ g. unwrap_or (option_map (λ v. v.items) g.octets) [] };
}

impl Gathered {
    ghost use Rattle.std.specs.Prelude.{◌≡◌, ◌++◌, [], ◌==◌, length, if◌then◌else◌, is_ok};

    /// None yet.
    pub fn new() -> Self
        ensures { result ≡ [] }
    {
        Gathered { octets: None }
    }

    /// The octets, borrowed.
    pub fn as_slice(&self) -> &[u8]
        ensures { result.now ≡ self.now }
    {
        match &self.octets {
            Some(octets) => octets,
            None => &[],
        }
    }

    /// Puts these after the others; without memory nothing changes.
    pub fn append(&mut self, alloc: Global, more: &[u8]) -> Result<(), AllocError>
        ensures { self.new ≡ (if is_ok result then self.old ++ more.now else self.old) }
    {
        match &mut self.octets {
            Some(octets) => octets.extend_from_slice(more),
            None => {
                self.octets = Some(Vec::from_slice(alloc, more)?);
                Ok(())
            }
        }
    }

    /// Forgets the octets and keeps their memory.
    pub fn clear(&mut self)
        ensures { self.new ≡ [] }
    {
        if let Some(octets) = &mut self.octets {
            octets.clear();
        }
    }

    /// Gives the octets away, and has none.
    pub fn take(&mut self, alloc: Global) -> Vec<u8>
        ensures value { result.items ≡ self.old }
        ensures after { self.new ≡ [] }
    {
        match self.octets.take() {
            Some(octets) => octets,
            None => Vec::new(alloc),
        }
    }
}
