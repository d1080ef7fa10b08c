//! Entries in a buffer that is made at once.

use crate::entry::Entry;
use crate::places::{behind, cut, offset};
use circular_buffer::HeapCircularBuffer;
use std::alloc::{AllocError, Global};
use std::marker::Model;
use sv_base::Moment;

/// The octets that an entry takes besides its own.
pub const OVERHEAD: usize = 24;

/// An entry: where its octets begin, and how many there are.
#[derive(Clone, Copy, Debug)]
struct Place {
    moment: Moment,
    step: u64,
    at: u32,
    len: u32,
}

/// Entries, the oldest first, in memory for a capacity in octets.
#[derive(Drop)]
pub struct Room {
    capacity: usize,
    begin: usize,
    end: usize,
    total: usize,
    places: HeapCircularBuffer<Place>,
    octets: HeapCircularBuffer<u8>,
}

impl Model for Room {
    ghost use Rattle.entry_ring.specs.Held.{Roomed};
    ghost use Rattle.entry_ring.specs.Rows.{held_in};
    ghost use Rattle.entry_ring.specs.Rooms.{IsRoom};

    ghost Value = { Roomed };

    ghost view = { λ r. record {
      capacity = r.capacity;
      entries = held_in r.places.items r.octets.items;
    } };

    ghost invariant = { λ r. IsRoom r.capacity r.begin r.end r.total r.places r.octets };
}

impl Room {
    ghost use Rattle.std.specs.Prelude.{◌≡◌, ◌≤◌, ◌+◌, ◌++◌, ◌∷◌, [], length, drop, slice_get};
    ghost use Rattle.std.specs.Prelude.{IfOk};
    ghost use Rattle.std.specs.Option.{option_map};
    ghost use Rattle.entry_ring.specs.Held.{Held, sizes};
    ghost use Rattle.entry_ring.specs.Entries.{held_of};

    /// No entry, and memory for a capacity in octets.
    pub fn new(alloc: Global, capacity: u32) -> Result<Room, AllocError>
        ensures { IfOk result (λ r. r ≡ record { capacity = capacity; entries = [] }) }
    {
        let capacity = capacity as usize;
        Ok(Room {
            capacity,
            begin: 0,
            end: 0,
            total: 0,
            places: HeapCircularBuffer::with_capacity(alloc, capacity / OVERHEAD)?,
            octets: HeapCircularBuffer::with_capacity(alloc, capacity)?,
        })
    }

    /// The capacity in octets.
    pub fn capacity(&self) -> usize
        ensures { result ≡ self.now.capacity }
    {
        self.capacity
    }

    /// How many octets the entries take.
    pub fn total(&self) -> usize
        ensures total { result ≡ sizes self.now.entries }
        ensures within { result ≤ self.now.capacity }
    {
        self.total
    }

    /// How many entries there are.
    #[tactic(auto, using(crate::proofs::RowLaws::length_held))]
    pub fn len(&self) -> usize
        ensures { result ≡ length self.now.entries }
    {
        self.places.len()
    }

    /// Drops all entries.
    pub fn clear(&mut self)
        ensures { self.new ≡ record { capacity = self.old.capacity; entries = [] } }
    {
        self.places.clear();
        self.octets.clear();
        self.begin = 0;
        self.end = 0;
        self.total = 0;
    }

    /// Drops the oldest entry, if there is one.
    pub fn discard(&mut self)
        ensures { self.new ≡ record {
          capacity = self.old.capacity;
          entries = drop 1 self.old.entries;
        } }
    {
        let Some(oldest) = self.places.pop_front() else {
            return;
        };
        let len = oldest.len as usize;
        self.octets.truncate_front(self.octets.len() - len);
        self.begin = behind(self.capacity, self.begin, len);
        self.total -= OVERHEAD + len;
    }

    /// Adds an entry that fits. It takes no memory.
    pub fn push(&mut self, moment: Moment, step: u64, kept: &[u8])
        requires { sizes self.old.entries + (24 + length kept.now) ≤ self.old.capacity }
        ensures { self.new ≡ record {
          capacity = self.old.capacity;
          entries = self.old.entries
              ++ record { moment = moment; step = step; kept = kept.now } ∷ [];
        } }
    {
        self.places.push_back(Place {
            moment,
            step,
            at: self.end as u32,
            len: kept.len() as u32,
        });
        self.octets.fill_from_slice(kept);
        self.end = behind(self.capacity, self.end, kept.len());
        self.total += OVERHEAD + kept.len();
    }

    /// The number of the step at which the entry at a place came to be, counted from the oldest.
    #[tactic(auto, using(crate::proofs::RowLaws::steps_held))]
    pub fn step_at(&self, i: usize) -> Option<u64>
        ensures { result ≡ option_map (λ (e : Held). e.step) (slice_get self.now.entries i) }
    {
        match self.places.get(i) {
            Some(place) => Some(place.step),
            None => None,
        }
    }

    /// The entry at a place, counted from the oldest.
    pub fn get(&self, i: usize) -> Option<Entry<'_>>
        ensures { option_map held_of result ≡ slice_get self.now.entries i }
    {
        let place = self.places.get(i)?;
        let (first, second) = self.octets.as_slices();
        let (first, second) = cut(
            first,
            second,
            offset(self.capacity, self.begin, place.at as usize),
            place.len as usize,
        );
        Some(Entry {
            moment: place.moment,
            step: place.step,
            first,
            second,
        })
    }
}
