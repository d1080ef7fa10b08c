//! Rows of octets, each found by its octets.

ghost use Rattle.std.specs.Prelude.{◌≡◌, ◌∷◌, true, IfSome, OnOk, OnErr};
ghost use Rattle.octet_rows.specs.Chains.{latest, AreChained};
ghost use Rattle.octet_rows.specs.Found.{is_at as is_row_at, first_at as first_row_at, IsNoted};
ghost use Rattle.octet_rows.specs.Found.{IsSame};

use crate::firsts::Firsts;
use crate::hashing::hash_of;
use crate::rows::{Rows, number_of};
use std::alloc::{AllocError, Global};
use std::marker::Model;

/// Rows of octets, seen by contracts as the list of them. Each is found by its octets at its place, of two that are the same at the first
/// one's.
#[derive(Drop)]
pub struct Index {
    rows: Rows,
    /// Of each number the place of the first row that has it.
    first: Firsts,
    /// The places of the other rows.
    further: Vec<u32>,
}

impl Model for Index {
    ghost use Rattle.std.specs.Prelude.{List, ℕ};
    ghost use Rattle.octet_rows.specs.Chains.{latest, AreChained};
    ghost use Rattle.octet_rows.specs.Found.{Finds};

    ghost Value = { List (List ℕ) };

    ghost view = { λ index. index.rows };

    ghost invariant = { λ index. (AreChained index.first.heads.items index.first.entries.items)
        × (Finds index.rows (latest index.first.entries.items) index.further.items) };
}

/// The row at the place is this one.
fn is_at(rows: &Rows, place: u32, row: &[u8]) -> bool
    ensures { result ≡ is_row_at rows.now row.now place }
{
    match rows.get(place as usize) {
        Some(other) => row == other,
        None => false,
    }
}

/// The last of n places, where the row stands there.
fn last_at(rows: &Rows, count: u32, row: &[u8]) -> Option<u32>
    ensures { IfSome result (λ place. is_row_at rows.now row.now place ≡ true) }
{
    let last = count.checked_sub(1)?;
    if is_at(rows, last, row) {
        Some(last)
    } else {
        None
    }
}

/// The first of the places at which the row stands.
fn first_at(rows: &Rows, places: &[u32], row: &[u8]) -> Option<u32>
    ensures { result ≡ first_row_at rows.now row.now places.now }
{
    for place in places {
        if is_at(rows, *place, row) {
            return Some(*place);
        }
    }
    None
}

/// The first of this place and the further places at which the row stands.
fn place_at(rows: &Rows, place: u32, further: &[u32], row: &[u8]) -> Option<u32>
    ensures { result ≡ first_row_at rows.now row.now (place ∷ further.now) }
{
    if is_at(rows, place, row) {
        return Some(place);
    }
    first_at(rows, further, row)
}

/// Notes the place of a row with this number. Where it fails, nothing is noted.
fn note(first: &mut Firsts, further: &mut Vec<u32>, hash: u64, place: u32) -> Result<(), AllocError>
    requires { AreChained first.old.heads.items first.old.entries.items }
    ensures chained { AreChained first.new.heads.items first.new.entries.items }
    ensures noted { OnOk result (IsNoted (latest first.old.entries.items) further.old.items
        (latest first.new.entries.items) further.new.items hash place) }
    ensures err { OnErr result (IsSame (latest first.old.entries.items) further.old.items
        (latest first.new.entries.items) further.new.items) }
{
    if first.insert(hash, place)?.is_some() {
        further.push(place)?;
    }
    Ok(())
}

impl Index {
    ghost use Rattle.std.specs.Prelude.{◌≡◌, ◌++◌, ◌∷◌, [], length, slice_get, option_copied, IfOk};
    ghost use Rattle.std.specs.Prelude.{OnOk, OnErr};
    ghost use Rattle.octet_rows.specs.Hashing.{hash_at};
    ghost use Rattle.octet_rows.specs.Found.{place_in};

    /// There is none.
    pub fn new(alloc: Global) -> Self
        ensures { result ≡ [] }
    {
        Index {
            rows: Rows::new(alloc),
            first: Firsts::new(alloc),
            further: Vec::new(alloc),
        }
    }

    /// There is none, and memory for that many, with that many octets together.
    pub fn with_capacity(alloc: Global, rows: usize, octets: usize) -> Result<Self, AllocError>
        ensures { IfOk result (λ index. index ≡ []) }
    {
        Ok(Index {
            rows: Rows::with_capacity(alloc, rows, octets)?,
            first: Firsts::with_capacity(alloc, rows)?,
            further: Vec::new(alloc),
        })
    }

    /// How many rows there are.
    pub fn len(&self) -> usize
        ensures { result ≡ length self.now }
    {
        self.rows.len()
    }

    /// The row at a place.
    pub fn get(&self, place: usize) -> Option<&[u8]>
        ensures { option_copied result ≡ slice_get self.now place }
    {
        self.rows.get(place)
    }

    /// The place of a row by its number; none exactly where it is not there.
    pub fn place_by(&self, hash: u64, row: &[u8]) -> Option<u32>
        requires { hash ≡ hash_at row.now }
        ensures { result ≡ place_in self.now row.now }
    {
        if self.further.is_empty() {
            // each row has an entry, in their order: that of the last is looked at without its number
            if let Some(place) = last_at(&self.rows, self.first.begun(hash), row) {
                return Some(place);
            }
        }
        let place = self.first.get(hash)?;
        place_at(&self.rows, place, &self.further, row)
    }

    /// The place of a row; none exactly where it is not there.
    pub fn place_of(&self, row: &[u8]) -> Option<u32>
        ensures { result ≡ place_in self.now row.now }
    {
        self.place_by(hash_of(row), row)
    }

    /// Gives back the memory beyond what the rows take.
    pub fn shrink_to_fit(&mut self)
        ensures { self.new ≡ self.old }
    {
        self.rows.shrink_to_fit();
        self.first.shrink_to_fit();
        self.further.shrink_to_fit();
    }

    /// Adds a row by its number, which may be there already. Where it fails, none is added.
    pub fn push_by(&mut self, hash: u64, row: &[u8]) -> Result<(), AllocError>
        requires { hash ≡ hash_at row.now }
        ensures ok { OnOk result (self.new ≡ self.old ++ row.now ∷ []) }
        ensures err { OnErr result (self.new ≡ self.old) }
    {
        let len = self.rows.len();
        let place = number_of(len)?;
        self.rows.push(row)?;
        match note(&mut self.first, &mut self.further, hash, place) {
            Ok(()) => Ok(()),
            Err(error) => {
                self.rows.truncate(len);
                Err(error)
            }
        }
    }

    /// Adds a row, which may be there already. Where it fails, none is added.
    pub fn push(&mut self, row: &[u8]) -> Result<(), AllocError>
        ensures ok { OnOk result (self.new ≡ self.old ++ row.now ∷ []) }
        ensures err { OnErr result (self.new ≡ self.old) }
    {
        self.push_by(hash_of(row), row)
    }
}
