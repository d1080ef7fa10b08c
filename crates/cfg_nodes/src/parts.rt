//! What is directly below each structure.

ghost use Rattle.std.specs.Prelude.{◌≡◌, ◌||◌, ℕ, List, Option, length, IfOk, OnOk};
ghost use Rattle.octet_rows.specs.Hashing.{hash_at};
ghost use Rattle.octet_rows.specs.Found.{place_in};
ghost use Rattle.std.specs.Str.{bytes_eq};
ghost use Rattle.cfg_lines.specs.Keys.{is_among};
ghost use Rattle.cfg_lines.specs.Paths.{above};
ghost use Rattle.cfg_lines.specs.Sizes.{with_name};
ghost use Rattle.cfg_nodes.specs.Indexed.{IsPlaced, IsWithin, parts_in, with_part};

use crate::part_names::PartNames;
use octet_rows::{Index, RowHash};
use std::alloc::{AllocError, Global};

/// The parts of the structures above some leaves.
#[derive(Drop)]
pub struct Parts<'a> {
    structures: Index,
    /// The parts of each.
    parts: Vec<PartNames<'a>>,
}

impl<'a> Parts<'a> {
    ghost use Rattle.std.specs.Prelude.{[], Some};

    /// There is no structure.
    pub fn new(alloc: Global) -> Self
        ensures even { length result.parts.items ≡ length result.structures }
        ensures structures { result.structures ≡ [] }
        ensures none { (other : List ℕ) → parts_in result other ≡ [] }
    {
        Parts {
            structures: Index::new(alloc),
            parts: Vec::new(alloc),
        }
    }

    /// Adds a part to the structure at a place, if there is a place.
    fn add_part(&mut self, above: Option<usize>, part: &'a [u8]) -> Result<(), AllocError>
        requires within { IsWithin self.old above }
        ensures structures { OnOk result (self.new.structures ≡ self.old.structures) }
        ensures even { OnOk result (length self.new.parts.items ≡ length self.old.parts.items) }
        ensures parts { OnOk result ((front : Option (List ℕ)) → IsPlaced self.old front above
            → (other : List ℕ)
            → parts_in self.new other ≡ with_part other (parts_in self.old other) front part.now) }
    {
        if let Some(place) = above {
            self.parts[place].add(part)?;
            return Ok(());
        }
        Ok(())
    }

    /// The place of a structure of this number, which is added without parts where it isn't there.
    fn place_of(&mut self, alloc: Global, hash: u64, node: &[u8]) -> Result<usize, AllocError>
        requires hash { hash ≡ hash_at node.now }
        requires even { length self.old.parts.items ≡ length self.old.structures }
        ensures place { IfOk result (λ place. place_in self.new.structures node.now ≡ Some place) }
        ensures among { OnOk result ((q : List ℕ)
            → is_among self.new.structures q
            ≡ (bytes_eq q node.now || is_among self.old.structures q)) }
        ensures even { OnOk result (length self.new.parts.items ≡ length self.new.structures) }
        ensures parts { OnOk result ((other : List ℕ)
            → parts_in self.new other ≡ parts_in self.old other) }
    {
        if let Some(place) = self.structures.place_by(hash, node) {
            return Ok(place as usize);
        }
        let place = self.structures.len();
        self.structures.push_by(hash, node)?;
        self.parts.push(PartNames::new(alloc))?;
        Ok(place)
    }

    /// Adds a structure of this number below the structure at a place, if there is a place; its place.
    fn add_structure(
        &mut self,
        alloc: Global,
        above: Option<usize>,
        hash: u64,
        node: &'a [u8],
    ) -> Result<usize, AllocError>
        requires hash { hash ≡ hash_at node.now }
        requires even { length self.old.parts.items ≡ length self.old.structures }
        requires within { IsWithin self.old above }
        ensures place { IfOk result (λ place. place_in self.new.structures node.now ≡ Some place) }
        ensures among { OnOk result ((q : List ℕ)
            → is_among self.new.structures q
            ≡ (bytes_eq q node.now || is_among self.old.structures q)) }
        ensures even { OnOk result (length self.new.parts.items ≡ length self.new.structures) }
        ensures parts { OnOk result ((front : Option (List ℕ)) → IsPlaced self.old front above
            → (other : List ℕ)
            → parts_in self.new other ≡ with_part other (parts_in self.old other) front node.now) }
    {
        self.add_part(above, node)?;
        let place = self.place_of(alloc, hash, node)?;
        Ok(place)
    }

    /// Adds to each structure above a path what is below it on the way there, and gives the path's number.
    pub fn add_path(&mut self, alloc: Global, path: &'a [u8]) -> Result<u64, AllocError>
        requires { length self.old.parts.items ≡ length self.old.structures }
        ensures number { IfOk result (λ hash. hash ≡ hash_at path.now) }
        ensures among { OnOk result ((q : List ℕ)
            → is_among self.new.structures q ≡ (is_among (above path.now) q
            || is_among self.old.structures q)) }
        ensures even { OnOk result (length self.new.parts.items ≡ length self.new.structures) }
        ensures parts { OnOk result ((other : List ℕ)
            → parts_in self.new other ≡ with_name other (parts_in self.old other) path.now) }
    {
        let mut hash = RowHash::new();
        let mut above = None;
        for (i, octet) in path.iter().enumerate() {
            if *octet == b'$' {
                above = Some(self.add_structure(alloc, above, hash.number(), &path[..i])?);
            }
            hash = hash.with(*octet);
        }
        self.add_part(above, path)?;
        Ok(hash.number())
    }
}

impl<'a> Parts<'a> {
    ghost use Rattle.std.specs.Prelude.{[], unwrap_or, option_copied};

    /// A node has parts.
    pub fn has(&self, node: &[u8]) -> bool
        ensures { result ≡ is_among self.now.structures node.now }
    {
        self.structures.place_of(node).is_some()
    }

    /// What is directly below a node, if it is there.
    pub fn of_node(&self, node: &[u8]) -> Option<&PartNames<'a>>
        ensures { unwrap_or (option_copied result) [] ≡ parts_in self.now node.now }
    {
        let place = self.structures.place_of(node)?;
        self.parts.get(place as usize)
    }
}
