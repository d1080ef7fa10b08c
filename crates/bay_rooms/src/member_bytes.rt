//! The Data of members in memory that was allocated before, so that filling them takes no memory.

ghost use Rattle.std.specs.Prelude.{◌≡◌, ◌<◌, length};
ghost use Rattle.bay_rooms.specs.Rooms.{begins};

use std::alloc::{AllocError, Global};
use std::marker::Model;

/// Where the part at a place begins, by the ends of all parts.
fn begin_of(ends: &[usize], i: usize) -> usize
    requires { i < length ends.now }
    ensures { result ≡ begins 0 ends.now i }
{
    if i == 0 { 0 } else { ends[i - 1] }
}

/// The MMS Data of the members of a note, in its order, in memory that was allocated before. Contracts see the list of them,
/// how many fit, and for how many octets in all there is memory.
#[derive(Debug, Drop)]
pub struct MemberBytes {
    octets: Vec<u8>,
    ends: Vec<usize>,
    members: usize,
    room: usize,
}

impl Model for MemberBytes {
    ghost use Rattle.std.specs.Prelude.{◌≡◌, ◌≤◌, ℕ, vec_len, vec_capacity, length};
    ghost use Rattle.bay_rooms.specs.Rooms.{FilledMembers, cut_at, IsCut};

    ghost Value = { FilledMembers };

    ghost view = { λ b. record {
      items = cut_at 0 b.ends.items b.octets.items;
      members = b.members;
      room = b.room;
    } };

    ghost invariant = { λ b. (vec_len b.octets ≤ b.room) × (b.room ≤ vec_capacity b.octets)
        × (vec_len b.ends ≤ b.members)
        × (b.members ≤ vec_capacity b.ends) × IsCut 0 b.ends.items b.octets.items };
}

impl MemberBytes {
    ghost use Rattle.std.specs.Prelude.{◌≡◌, ◌==◌, ◌<◌, ◌≤◌, ◌+◌, ◌++◌, ◌∷◌, [], length};
    ghost use Rattle.std.specs.Prelude.{slice_index_or, IfOk};
    ghost use Rattle.std.specs.List.{concat};

    /// No member, and memory for that many, of n octets in all.
    pub fn new(alloc: Global, members: u32, octets: u32) -> Result<MemberBytes, AllocError>
        ensures { IfOk result (λ b. b ≡ record { items = []; members = members; room = octets }) }
    {
        Ok(MemberBytes {
            octets: Vec::with_capacity(alloc, octets as usize)?,
            ends: Vec::with_capacity(alloc, members as usize)?,
            members: members as usize,
            room: octets as usize,
        })
    }

    /// Empties it.
    pub fn clear(&mut self)
        ensures { self.new ≡ record {
          items = [];
          members = self.old.members;
          room = self.old.room;
        } }
    {
        self.octets.clear();
        self.ends.clear();
    }

    /// Adds a member after the others. It takes no memory.
    #[tactic(auto, using(crate::proofs::RoomLaws::cut_and_more, crate::proofs::RoomLaws::cut_stays))]
    pub fn push(&mut self, octets: &[u8])
        requires members { length self.old.items < self.old.members }
        requires octets { length (concat self.old.items) + length octets.now ≤ self.old.room }
        ensures { self.new ≡ record {
          items = self.old.items ++ octets.now ∷ [];
          members = self.old.members;
          room = self.old.room;
        } }
    {
        let _ = self.octets.extend_from_slice(octets);
        let _ = self.ends.push(self.octets.len());
    }

    /// How many members there are.
    #[tactic(auto, using(crate::proofs::RoomLaws::length_of_cut))]
    pub fn len(&self) -> usize
        ensures { result ≡ length self.now.items }
    {
        self.ends.len()
    }

    /// There is no member.
    #[tactic(auto, using(crate::proofs::RoomLaws::length_of_cut))]
    pub fn is_empty(&self) -> bool
        ensures { result ≡ (length self.now.items == 0) }
    {
        self.ends.is_empty()
    }

    /// The Data of the member at a place, counted from 0.
    #[tactic(auto, using(crate::proofs::RoomLaws::length_of_cut, crate::proofs::RoomLaws::cut_ascends, crate::proofs::RoomLaws::cut_gives))]
    pub fn get(&self, i: usize) -> &[u8]
        requires { i < length self.now.items }
        ensures { result.now ≡ slice_index_or self.now.items i [] }
    {
        let ends = self.ends.as_slice();
        &self.octets.as_slice()[begin_of(ends, i)..ends[i]]
    }
}
