//! Octets in memory that was allocated before, so that filling them takes no memory.

use std::alloc::{AllocError, Global};
use std::marker::Model;

/// Octets in memory that was allocated before. Contracts see the list of them, and how many fit.
#[derive(Debug, Drop)]
pub struct Fixed {
    octets: Vec<u8>,
    len: usize,
    room: usize,
}

impl Model for Fixed {
    ghost use Rattle.std.specs.Prelude.{◌≤◌, ℕ, take, vec_len, vec_capacity};
    ghost use Rattle.sv_base.specs.Filled.{Filled};

    ghost Value = { Filled ℕ };

    ghost view = { λ f. record { items = take f.len f.octets.items; room = f.room } };

    ghost invariant = { λ f. (f.len ≤ vec_len f.octets) × (vec_len f.octets ≤ f.room)
        × (f.room ≤ vec_capacity f.octets) };
}

impl Fixed {
    ghost use Rattle.std.specs.Prelude.{◌≡◌, ◌==◌, ◌<◌, ◌≤◌, ◌+◌, ◌++◌, ◌∷◌, [], length, take};
    ghost use Rattle.std.specs.Prelude.{drop, IfOk};

    /// No octets, and memory for that many.
    pub fn new(alloc: Global, room: u32) -> Result<Fixed, AllocError>
        ensures { IfOk result (λ f. f ≡ record { items = []; room = room }) }
    {
        Ok(Fixed {
            octets: Vec::with_capacity(alloc, room as usize)?,
            len: 0,
            room: room as usize,
        })
    }

    /// Empties it.
    pub fn clear(&mut self)
        ensures { self.new ≡ record { items = []; room = self.old.room } }
    {
        self.len = 0;
    }

    /// Adds octets after the others. It takes no memory.
    pub fn push(&mut self, octets: &[u8])
        requires { length self.old.items + length octets.now ≤ self.old.room }
        ensures { self.new ≡ record { items = self.old.items ++ octets.now; room = self.old.room } }
    {
        let end = self.len + octets.len();
        if end <= self.octets.len() {
            self.octets[self.len..end].copy_from_slice(octets);
            self.len = end;
        } else {
            self.lengthen(octets);
        }
    }

    /// Adds octets after the others, as many as are known beforehand. It takes no memory.
    pub fn push_array<const N: usize>(&mut self, octets: [u8; N])
        requires { length self.old.items + N ≤ self.old.room }
        ensures { self.new ≡ record {
          items = self.old.items ++ octets.entry;
          room = self.old.room;
        } }
    {
        let end = self.len + N;
        if end <= self.octets.len() {
            self.octets[self.len..end].copy_from_slice(&octets);
            self.len = end;
        } else {
            self.lengthen_by(octets);
        }
    }

    /// Adds octets where there were never as many before. It stays a call, so that what is added mostly takes none.
    #[inline(never)]
    fn lengthen(&mut self, octets: &[u8])
        requires { length self.old.items + length octets.now ≤ self.old.room }
        ensures { self.new ≡ record { items = self.old.items ++ octets.now; room = self.old.room } }
    {
        self.octets.truncate(self.len);
        let _ = self.octets.extend_from_slice(octets);
        self.len = self.octets.len();
    }

    /// The same for an array, which is taken whole, so that it needn't lie in memory where there is some.
    #[inline(never)]
    fn lengthen_by<const N: usize>(&mut self, octets: [u8; N])
        requires { length self.old.items + N ≤ self.old.room }
        ensures { self.new ≡ record {
          items = self.old.items ++ octets.entry;
          room = self.old.room;
        } }
    {
        self.lengthen(&octets);
    }

    /// Takes the octets of another one with as much capacity. It takes no memory.
    pub fn copy_from(&mut self, other: &Fixed)
        requires { other.now.room ≡ self.old.room }
        ensures { self.new ≡ other.now }
    {
        self.clear();
        self.push(&other.octets[..other.len]);
    }

    /// Puts octets in front of those from a place on. It takes no memory.
    pub fn insert(&mut self, at: usize, octets: &[u8])
        requires place { at ≤ length self.old.items }
        requires room { length self.old.items + length octets.now ≤ self.old.room }
        ensures { self.new ≡ record {
          items = take at self.old.items
              ++ (octets.now ++ drop at self.old.items);
          room = self.old.room;
        } }
    {
        self.octets.truncate(self.len);
        let _ = self.octets.extend_from_slice(octets);
        self.octets[at..].rotate_right(octets.len());
        self.len = self.octets.len();
    }

    /// How many octets there are.
    pub fn len(&self) -> usize
        ensures { result ≡ length self.now.items }
    {
        self.len
    }

    /// There is no octet.
    pub fn is_empty(&self) -> bool
        ensures { result ≡ (length self.now.items == 0) }
    {
        self.len == 0
    }

    /// How many octets have capacity.
    pub fn room(&self) -> usize
        ensures { result ≡ self.now.room }
    {
        self.room
    }

    /// The octets, borrowed.
    pub fn as_slice(&self) -> &[u8]
        ensures { result.now ≡ self.now.items }
    {
        &self.octets[..self.len]
    }
}
