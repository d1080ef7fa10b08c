//! Octet rows that lie one after the other.

ghost use Rattle.std.specs.Prelude.{◌≡◌, ◌+◌, IfOk};

use std::alloc::{AllocError, Global};
use std::marker::Model;

/// Where a row lies among the octets of all.
#[derive(Clone, Copy)]
struct Extent {
    start: u32,
    end: u32,
}

/// The number of a place; one that is too large for a number is refused as out of memory.
pub(crate) fn number_of(place: usize) -> Result<u32, AllocError>
    ensures { IfOk result (λ number. number ≡ place) }
{
    if place > 0xffff_ffff {
        return Err(AllocError);
    }
    Ok(place as u32)
}

/// Where a row of n octets lies after others.
fn extent_behind(octets: usize, len: usize) -> Result<Extent, AllocError>
    ensures { IfOk result (λ extent. extent ≡ record { start = octets; end = octets + len }) }
{
    let end = octets.checked_add(len).ok_or(AllocError)?;
    Ok(Extent {
        start: number_of(octets)?,
        end: number_of(end)?,
    })
}

/// Octet rows, seen by contracts as the list of them.
#[derive(Drop)]
pub struct Rows {
    octets: Vec<u8>,
    extents: Vec<Extent>,
}

impl Model for Rows {
    ghost use Rattle.std.specs.Prelude.{List, ℕ};
    ghost use Rattle.octet_rows.specs.Laid.{rows_in, AreWithin};

    ghost Value = { List (List ℕ) };

    ghost view = { λ r. rows_in r.octets.items r.extents.items };

    ghost invariant = { λ r. AreWithin r.octets.items r.extents.items };
}

impl Rows {
    ghost use Rattle.std.specs.Prelude.{◌≡◌, ◌++◌, ◌∷◌, [], length, slice_get, option_copied, IfOk};
    ghost use Rattle.std.specs.Prelude.{OnOk, OnErr};

    /// There is none.
    pub fn new(alloc: Global) -> Rows
        ensures { result ≡ [] }
    {
        Rows {
            octets: Vec::new(alloc),
            extents: Vec::new(alloc),
        }
    }

    /// There is none, and memory for that many, with that many octets together.
    pub fn with_capacity(alloc: Global, rows: usize, octets: usize) -> Result<Rows, AllocError>
        ensures { IfOk result (λ r. r ≡ []) }
    {
        Ok(Rows {
            octets: Vec::with_capacity(alloc, octets)?,
            extents: Vec::with_capacity(alloc, rows)?,
        })
    }

    /// How many there are.
    pub fn len(&self) -> usize
        ensures { result ≡ length self.now }
    {
        self.extents.len()
    }

    /// The row at a place.
    pub fn get(&self, place: usize) -> Option<&[u8]>
        ensures { option_copied result ≡ slice_get self.now place }
    {
        let extent = self.extents.get(place)?;
        Some(&self.octets[extent.start as usize..extent.end as usize])
    }

    /// Adds a row. Where it fails, none is added.
    pub fn push(&mut self, row: &[u8]) -> Result<(), AllocError>
        ensures ok { OnOk result (self.new ≡ self.old ++ row.now ∷ []) }
        ensures err { OnErr result (self.new ≡ self.old) }
    {
        let extent = extent_behind(self.octets.len(), row.len())?;
        self.octets.extend_from_slice(row)?;
        self.extents.push(extent)?;
        Ok(())
    }
}

impl Rows {
    ghost use Rattle.std.specs.Prelude.{◌≡◌, take};

    /// Gives back the memory beyond what the rows take.
    pub fn shrink_to_fit(&mut self)
        ensures { self.new ≡ self.old }
    {
        self.octets.shrink_to_fit();
        self.extents.shrink_to_fit();
    }

    /// Keeps that many of the first rows.
    pub fn truncate(&mut self, len: usize)
        ensures { self.new ≡ take len self.old }
    {
        self.extents.truncate(len);
    }
}
