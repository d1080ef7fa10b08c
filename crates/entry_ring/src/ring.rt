//! The entries of a block, by their numbers.

ghost use Rattle.std.specs.Prelude.{◌≡◌, ◌≤◌, drop};
ghost use Rattle.entry_ring.specs.Fitting.{least_for};

use crate::entry::Entry;
use crate::room::{OVERHEAD, Room};
use std::alloc::{AllocError, Global};
use std::marker::Model;
use sv_base::Moment;

/// Drops as many of the oldest entries as have to go for an entry of this size.
fn make_room(room: &mut Room, size: usize)
    requires { size ≤ room.old.capacity }
    ensures { room.new ≡ record {
      capacity = room.old.capacity;
      entries = drop (least_for room.old.capacity size room.old.entries) room.old.entries;
    } }
{
    while room.capacity() - room.total() < size {
        room.discard();
    }
}

/// The buffer of a block: its entries are numbered from 1 in the order in which they come, and the newest ones that fit the
/// capacity together are retained. It keeps the moment of the newest one, retained or not.
#[derive(Drop)]
pub struct Ring {
    newest: u64,
    newest_moment: Option<Moment>,
    room: Room,
}

impl Model for Ring {
    ghost use Rattle.std.specs.Prelude.{◌≤◌, ◌-◌, length};
    ghost use Rattle.entry_ring.specs.Ringed.{Ringed};

    ghost Value = { Ringed };

    ghost view = { λ r. record {
      capacity = r.room.capacity;
      newest = r.newest;
      newest_moment = r.newest_moment;
      front = r.newest - length r.room.entries;
      entries = r.room.entries;
    } };

    ghost invariant = { λ r. length r.room.entries ≤ r.newest };
}

impl Ring {
    ghost use Rattle.std.specs.Prelude.{◌≡◌, ◌<◌, nat_lt, nat_le, ◌&&◌, true, [], None, IfOk};
    ghost use Rattle.std.specs.Option.{option_map};
    ghost use Rattle.entry_ring.specs.Entries.{held_of};
    ghost use Rattle.entry_ring.specs.Held.{Held};
    ghost use Rattle.entry_ring.specs.Ringed.{after_entry, after_purge, entry_at};

    /// An empty buffer, with all the memory for a capacity in octets, 1 to 1048576.
    pub fn open(alloc: Global, capacity: u32) -> Result<Ring, AllocError>
        ensures { IfOk result (λ r. r ≡ record {
          capacity = capacity;
          newest = 0;
          newest_moment = None;
          front = 0;
          entries = [];
        }) }
    {
        Ok(Ring {
            newest: 0,
            newest_moment: None,
            room: Room::new(alloc, capacity)?,
        })
    }

    /// Numbers an entry and keeps it; the oldest entries go, as many as have to. One that is larger than the capacity takes a
    /// number and is discarded at once. After number 2^64 - 1 no further entry comes to be. It takes no memory.
    ///
    /// An entry takes 24 octets besides its own. `step` is the number of the step at which it came to be.
    pub fn append(&mut self, moment: Moment, step: u64, kept: &[u8])
        ensures { self.new ≡ after_entry self.old (record {
          moment = moment;
          step = step;
          kept = kept.now;
        }) }
    {
        if self.newest == u64::MAX {
            return;
        }
        self.newest += 1;
        self.newest_moment = Some(moment);
        let size = OVERHEAD + kept.len();
        if self.room.capacity() < size {
            self.room.clear();
            return;
        }
        make_room(&mut self.room, size);
        self.room.push(moment, step, kept);
    }

    /// The number of the newest entry that is no longer retained, or 0.
    pub fn front(&self) -> u64
        ensures { result ≡ self.now.front }
    {
        self.newest - self.room.len() as u64
    }

    /// How many entries there were, which is the number of the newest one.
    pub fn len(&self) -> u64
        ensures { result ≡ self.now.newest }
    {
        self.newest
    }

    /// The moment of the newest entry, retained or not; none where there was none.
    pub fn newest_moment(&self) -> Option<Moment>
        ensures { result ≡ self.now.newest_moment }
    {
        self.newest_moment
    }

    /// Discards all entries. Numbers go on. It takes no memory.
    pub fn purge(&mut self)
        ensures { self.new ≡ after_purge self.old }
    {
        self.room.clear();
    }

    /// The entry of a number is retained.
    fn is_retained(&self, n: u64) -> bool
        ensures is { result ≡ (nat_lt self.now.front n && nat_le n self.now.newest) }
        ensures above { result ≡ true → self.now.front < n }
    {
        self.front() < n && n <= self.newest
    }

    /// A retained entry by its number; none exactly where no entry of that number is retained.
    pub fn entry(&self, n: u64) -> Option<Entry<'_>>
        ensures { option_map held_of result ≡ entry_at self.now n }
    {
        if !self.is_retained(n) {
            return None;
        }
        self.room.get((n - self.front() - 1) as usize)
    }

    /// The number of the step at which a retained entry came to be, by the entry's number; none exactly where no entry of that number
    /// is retained.
    pub fn step_of(&self, n: u64) -> Option<u64>
        ensures { result ≡ option_map (λ (e : Held). e.step) (entry_at self.now n) }
    {
        if !self.is_retained(n) {
            return None;
        }
        self.room.step_at((n - self.front() - 1) as usize)
    }
}
