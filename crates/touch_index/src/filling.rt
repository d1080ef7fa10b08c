//! The index while the blocks get their members: nothing is sorted yet.

ghost use Rattle.std.specs.Prelude.{◌≡◌, ◌≤◌, ◌<◌, ◌^◌, ◌*◌, length, replicate, IfOk};
ghost use Rattle.touch_index.specs.Indexed.{touches_from, pairs, bare};

use crate::touch::{Row, Touch};
use crate::touches::Touches;
use set_view::SetView;
use std::alloc::{AllocError, Global};
use std::marker::Model;
use sv_base::{AttrId, BlockNo, MemberNo};

/// The touches of a block's members, in place of others. It takes no memory.
pub(crate) fn fill(block: &mut Touches, b: BlockNo, set: &SetView<'_>)
    requires room { pairs set.now ≤ block.old.room }
    requires counted { length set.now < 2 ^ 32 }
    ensures { block.new ≡ record { items = touches_from b.0 1 set.now; room = block.old.room } }
{
    block.clear();
    for place in 0..set.len() {
        let attrs = set.member(place).attrs.as_slice();
        block.push_all(b, MemberNo(place as u32 + 1), attrs);
    }
}

/// This many blocks without touches, each with capacity for that many.
fn bare_blocks(alloc: Global, blocks: u32, room: u32) -> Result<Vec<Touches>, AllocError>
    ensures { IfOk result (λ v. v.items ≡ replicate blocks (bare room)) }
{
    let mut made = Vec::with_capacity(alloc, blocks as usize)?;
    for _ in 0..blocks {
        made.push(Touches::with_room(alloc, room)?)?;
    }
    Ok(made)
}

/// This many touches of no account.
fn no_touches(alloc: Global, blocks: u32, room: u32) -> Result<Vec<Touch>, AllocError>
    ensures { IfOk result (λ v. length v.items ≡ blocks * room) }
{
    let touches = (blocks as usize)
        .checked_mul(room as usize)
        .ok_or(AllocError)?;
    let touch = Touch {
        attr: AttrId(0),
        block: BlockNo(0),
        member: MemberNo(0),
    };
    vec![in alloc; touch; touches]
}

/// An index whose blocks get their members one after another (IEC 61850-7-2, DATA-SET). Nothing is sorted before it is
/// finished. Contracts see it as they see the index.
#[derive(Debug, Drop)]
pub struct Filling {
    pub(crate) blocks: Vec<Touches>,
    pub(crate) rows: Vec<Row>,
    pub(crate) sorted: Vec<Touch>,
}

impl Model for Filling {
    ghost use Rattle.std.specs.Prelude.{length};
    ghost use Rattle.touch_index.specs.Indexed.{Indexed, IsFilled};

    ghost Value = { Indexed };

    ghost view = { λ x. record { attrs = length x.rows.items; blocks = x.blocks.items } };

    ghost invariant = { λ x. IsFilled x.blocks.items x.rows.items x.sorted.items };
}

impl Filling {
    ghost use Rattle.std.specs.Prelude.{◌≡◌, ◌≤◌, ◌<◌, ◌^◌, length, replicate, IfOk};
    ghost use Rattle.touch_index.specs.Indexed.{block_at, with_members, pairs, bare, AreAmong};

    /// This many blocks without members, each with capacity for n pairs of attribute and member.
    pub fn open(alloc: Global, blocks: u32, attrs: u32, room: u32) -> Result<Filling, AllocError>
        ensures { IfOk result (λ x. x ≡ record {
          attrs = attrs;
          blocks = replicate blocks (bare room);
        }) }
    {
        Ok(Filling {
            blocks: bare_blocks(alloc, blocks, room)?,
            rows: vec![in alloc; Row { start: 0, end: 0 }; attrs as usize]?,
            sorted: no_touches(alloc, blocks, room)?,
        })
    }

    /// Replaces the members of a block. It takes no memory.
    pub fn put(&mut self, b: BlockNo, set: &SetView<'_>)
        requires block { b.0 < length self.old.blocks }
        requires room { pairs set.now ≤ (block_at self.old.blocks b.0).room }
        requires counted { length set.now < 2 ^ 32 }
        requires among { AreAmong self.old.attrs set.now }
        ensures { self.new ≡ record {
          attrs = self.old.attrs;
          blocks = with_members b.0 set.now self.old.blocks;
        } }
    {
        fill(&mut self.blocks[b.0 as usize], b, set);
    }
}
