//! The touches of one block.

use crate::touch::Touch;
use std::alloc::{AllocError, Global};
use std::marker::Model;
use sv_base::{AttrId, BlockNo, MemberNo};

/// The touches of the members of one block, in their order, in memory that was allocated before. Contracts see the list of them,
/// and how many fit.
#[derive(Debug, Drop)]
pub(crate) struct Touches {
    items: Vec<Touch>,
    room: usize,
}

impl Model for Touches {
    ghost use Rattle.std.specs.Prelude.{◌≤◌, vec_len, vec_capacity};
    ghost use Rattle.sv_base.specs.Filled.{Filled};
    ghost use Rattle.touch_index.specs.declared.touch.Touch.{Touch};

    ghost Value = { Filled Touch };

    ghost view = { λ n. record { items = n.items.items; room = n.room } };

    ghost invariant = { λ n. (vec_len n.items ≤ n.room) × (n.room ≤ vec_capacity n.items) };
}

impl Touches {
    ghost use Rattle.std.specs.Prelude.{◌≡◌, ◌≤◌, ◌<◌, ◌+◌, ◌++◌, ◌∷◌, [], length, max, IfOk, OnOk};
    ghost use Rattle.std.specs.Prelude.{OnErr};
    ghost use Rattle.touch_index.specs.Indexed.{touches_of};

    /// None, in memory for that many.
    pub(crate) fn with_room(alloc: Global, room: u32) -> Result<Touches, AllocError>
        ensures { IfOk result (λ t. t ≡ record { items = []; room = room }) }
    {
        Ok(Touches {
            items: Vec::with_capacity(alloc, room as usize)?,
            room: room as usize,
        })
    }

    /// How many fit.
    pub(crate) fn room(&self) -> usize
        ensures { result ≡ self.now.room }
    {
        self.room
    }

    /// The touches, borrowed.
    pub(crate) fn as_slice(&self) -> &[Touch]
        ensures { result.now ≡ self.now.items }
    {
        &self.items
    }

    /// Empties it.
    pub(crate) fn clear(&mut self)
        ensures { self.new ≡ record { items = []; room = self.old.room } }
    {
        self.items.clear();
    }

    /// Reserves memory for that many at least.
    pub(crate) fn reserve(&mut self, wanted: usize) -> Result<(), AllocError>
        requires { self.old.room ≤ wanted }
        ensures made { OnOk result (self.new ≡ record { items = self.old.items; room = wanted }) }
        ensures kept { OnErr result (self.new ≡ self.old) }
    {
        self.items.reserve(wanted - self.items.len())?;
        self.room = wanted;
        Ok(())
    }

    /// Adds the touches of a member. It takes no memory.
    pub(crate) fn push_all(&mut self, b: BlockNo, member: MemberNo, attrs: &[AttrId])
        requires { length self.old.items + length attrs.now ≤ self.old.room }
        ensures { self.new ≡ record {
          items = self.old.items ++ touches_of b.0 member.0 attrs.now;
          room = self.old.room;
        } }
    {
        for attr in attrs {
            let _ = self.items.push(Touch {
                attr: *attr,
                block: b,
                member,
            });
        }
    }
}
