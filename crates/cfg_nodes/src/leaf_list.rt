//! Nodes without parts, whose names lie one after the other.

use octet_rows::Rows;
use std::alloc::{AllocError, Global};
use std::marker::Model;

/// Nodes without parts that may be in a data set, and the most octets of the Data of each; seen by contracts as the list of them.
#[derive(Drop)]
pub struct Leaves {
    names: Rows,
    octets: Vec<u32>,
}

impl Model for Leaves {
    ghost use Rattle.std.specs.Prelude.{◌≡◌, List, length};
    ghost use Rattle.cfg_lines.specs.declared.leaf.Leaf.{Leaf};
    ghost use Rattle.cfg_nodes.specs.LeafLists.{leaves_at};

    ghost Value = { List Leaf };

    ghost view = { λ l. leaves_at l.names l.octets.items };

    ghost invariant = { λ l. length l.octets.items ≡ length l.names };
}

impl Leaves {
    ghost use Rattle.std.specs.Prelude.{◌≡◌, ◌++◌, ◌∷◌, [], length, map, slice_get, unwrap_or};
    ghost use Rattle.std.specs.Prelude.{IfOk, OnOk};

    /// There is none, and memory for that many, at 32 octets a name.
    pub fn with_capacity(alloc: Global, leaves: usize) -> Result<Leaves, AllocError>
        ensures { IfOk result (λ l. l ≡ []) }
    {
        Ok(Leaves {
            names: Rows::with_capacity(alloc, leaves, leaves.saturating_mul(32))?,
            octets: Vec::with_capacity(alloc, leaves)?,
        })
    }

    /// How many there are.
    pub fn len(&self) -> usize
        ensures { result ≡ length self.now }
    {
        self.octets.len()
    }

    /// The name of the node at a place; no octets where there is none.
    pub fn name(&self, place: usize) -> &[u8]
        ensures { result.now ≡ unwrap_or (slice_get (map (λ leaf. leaf.name) self.now) place) [] }
    {
        self.names.get(place).unwrap_or(&[])
    }

    /// The octets of the node at a place.
    pub fn octets(&self, place: usize) -> Option<u32>
        ensures { result ≡ slice_get (map (λ leaf. leaf.octets) self.now) place }
    {
        self.octets.get(place).copied()
    }

    /// Adds a node.
    pub fn push(&mut self, name: &[u8], octets: u32) -> Result<(), AllocError>
        ensures { OnOk result (self.new ≡ self.old
            ++ (record { name = name.now; octets = octets }) ∷ []) }
    {
        let len = self.names.len();
        self.names.push(name)?;
        match self.octets.push(octets) {
            Ok(()) => Ok(()),
            Err(error) => {
                self.names.truncate(len);
                Err(error.into())
            }
        }
    }
}
