//! The notes of a point, one for each block (IEC 61850-7-2, ReasonForInclusion).

ghost use Rattle.std.specs.Prelude.{◌≡◌, ◌≤◌, ◌<◌, ◌++◌, ◌∷◌, [], replicate, vec_len, vec_capacity};
ghost use Rattle.std.specs.Prelude.{IfOk};

use bay_model::{Mention, Note, Reasons};
use std::alloc::{AllocError, Global};
use std::marker::Model;
use sv_base::{BlockNo, MemberNo};

/// This many empty notes with capacity for n members each.
fn empty_notes(alloc: Global, blocks: u32, room: u32) -> Result<Vec<Note>, AllocError>
    ensures { IfOk result (λ v. v.items ≡ replicate blocks (record { items = []; room = room })) }
{
    let mut notes = Vec::new(alloc);
    for _ in 0..blocks {
        notes.push(Note::new(alloc, room)?)?;
    }
    Ok(notes)
}

/// A block is met. It takes no memory.
fn meet(touched: &mut Vec<BlockNo>, b: BlockNo)
    requires { vec_len touched.old < vec_capacity touched.old }
    ensures met { touched.new.items ≡ touched.old.items ++ b ∷ [] }
    ensures room { vec_capacity touched.old ≤ vec_capacity touched.new }
{
    let _ = touched.push(b);
}

/// The notes of a point, one for each block, in memory that was allocated before. It knows which of them have a member, so that
/// no other has to be looked at.
#[derive(Drop)]
pub struct Notes {
    notes: Vec<Note>,
    touched: Vec<BlockNo>,
}

impl Model for Notes {
    ghost use Rattle.std.specs.Prelude.{◌≤◌, length, vec_capacity};
    ghost use Rattle.touch_index.specs.Gathering.{Gathered, IsCovered};

    ghost Value = { Gathered };

    ghost view = { λ n. record { notes = n.notes.items; touched = n.touched.items } };

    ghost invariant = { λ n. IsCovered n.notes.items n.touched.items
        × (length n.notes.items ≤ vec_capacity n.touched) };
}

impl Notes {
    ghost use Rattle.std.specs.Prelude.{◌≡◌, ◌≤◌, ◌<◌, ◌++◌, ◌∷◌, [], length, replicate, List};
    ghost use Rattle.std.specs.Prelude.{IfOk, IfSome, Option, None, Some};
    ghost use Rattle.sv_base.specs.declared.numbers.BlockNo.{BlockNo as BlockNoValue};
    ghost use Rattle.bay_model.specs.Mentions.{add as added};
    ghost use Rattle.touch_index.specs.Gathering.{note_at, with_items, AreEmpty};

    /// This many empty notes with capacity for n members each.
    pub fn new(alloc: Global, blocks: u32, room: u32) -> Result<Notes, AllocError>
        ensures { IfOk result (λ n. n ≡ record {
          notes = replicate blocks
              (record { items = []; room = room });
          touched = [];
        }) }
    {
        Ok(Notes {
            notes: empty_notes(alloc, blocks, room)?,
            touched: Vec::with_capacity(alloc, blocks as usize)?,
        })
    }

    /// Reasons of a member in the note of a block. It takes no memory.
    pub(crate) fn add(&mut self, b: BlockNo, member: MemberNo, reasons: Reasons)
        requires block { b.0 < length self.old.notes }
        requires room { length (added member.0 reasons (note_at self.old.notes b.0).items)
            ≤ (note_at self.old.notes b.0).room }
        ensures { self.new.notes ≡ with_items b.0
            (added member.0 reasons (note_at self.old.notes b.0).items) self.old.notes }
    {
        let place = b.0 as usize;
        if self.notes[place].is_empty() {
            meet(&mut self.touched, b);
        }
        self.notes[place].add(member, reasons);
    }

    /// A block whose note has a member: the one that was met last. Where there is none, all notes are empty.
    pub fn last(&self) -> Option<BlockNo>
        ensures none { result ≡ None → AreEmpty self.now.notes }
        ensures within { IfSome result (λ b. b.0 < length self.now.notes) }
        ensures some { IfSome result (λ b. (front : List BlockNoValue)
            × (self.now.touched ≡ front ++ b ∷ [])) }
    {
        self.touched.last().copied()
    }

    /// The note of a block.
    pub fn note(&self, b: BlockNo) -> &Note
        requires { b.0 < length self.now.notes }
        ensures { result.now ≡ note_at self.now.notes b.0 }
    {
        &self.notes[b.0 as usize]
    }

    /// Empties the note of the block that was met last. It takes no memory.
    pub fn clear_last(&mut self)
        ensures { (front : List BlockNoValue) (b : BlockNoValue)
            → self.old.touched ≡ front ++ b ∷ []
            → self.new ≡ record { notes = with_items b.0 [] self.old.notes; touched = front } }
    {
        if let Some(b) = self.touched.pop() {
            self.notes[b.0 as usize].clear();
        }
    }
}
