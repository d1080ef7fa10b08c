//! The notes of a point for all blocks, gathered in one walk over what its changes touch.

ghost use Rattle.std.specs.Prelude.{◌≡◌, ◌≤◌, ◌<◌, ℕ, length};
ghost use Rattle.std.specs.List.{All};
ghost use Rattle.touch_index.specs.declared.touch.Touch.{Touch as TouchValue};
ghost use Rattle.touch_index.specs.Gathered.{CanAdd};
ghost use Rattle.touch_index.specs.Gathering.{note_at, trg_at, add_touched};

use crate::index::Index;
use crate::notes::Notes;
use crate::touch::Touch;
use bay_model::{Change, Trg};
use trigger_core::reasons_by;

/// What a change adds to the notes of the blocks that its touches name.
fn gather_change(change: Change, touches: &[Touch], trgs: &[Trg], out: &mut Notes)
    requires within { All (λ (t : TouchValue). t.block.0 < length out.old.notes) touches.now }
    requires trgs { length trgs.now ≡ length out.old.notes }
    requires fits { (b : ℕ) → b < length out.old.notes
        → CanAdd b touches.now (note_at out.old.notes b) }
    ensures count { length out.new.notes ≡ length out.old.notes }
    ensures rooms { (b : ℕ) → (note_at out.new.notes b).room ≡ (note_at out.old.notes b).room }
    ensures items { (b : ℕ) → b < length out.old.notes
        → (note_at out.new.notes b).items ≡ add_touched b (trg_at trgs.now b) change touches.now
        (note_at out.old.notes b).items }
{
    for touch in touches {
        let reasons = reasons_by(trgs[touch.block.0 as usize], change);
        if reasons.is_any() {
            out.add(touch.block, touch.member, reasons);
        }
    }
}

impl Index {
    ghost use Rattle.std.specs.Prelude.{◌≡◌, ◌≤◌, ◌<◌, ℕ, List, length};
    ghost use Rattle.std.specs.List.{All};
    ghost use Rattle.bay_model.specs.declared.flags.Change.{Change as ChangeValue};
    ghost use Rattle.bay_model.specs.declared.tables.MemberShape.{MemberShape};
    ghost use Rattle.trigger_core.specs.Noted.{noted};
    ghost use Rattle.touch_index.specs.Gathered.{AreOnce, IsSetOf};
    ghost use Rattle.touch_index.specs.Gathering.{note_at, trg_at, AreEmpty, AreRoomy};

    /// The notes of a point for all blocks: of each block the members of its data set that the point is an event of under
    /// the trigger options of the block, in the order of the set, each with the reasons of all its attributes (IEC 61850-7-2,
    /// TrgOps and ReasonForInclusion). What the changes don't touch isn't looked at. It takes no memory.
    pub fn gather(&self, changes: &[Change], trgs: &[Trg], out: &mut Notes)
        requires attrs { All (λ (ch : ChangeValue). ch.attr.0 < self.now.attrs) changes.now }
        requires count { length out.old.notes ≡ length self.now.blocks }
        requires trgs { length trgs.now ≡ length self.now.blocks }
        requires empty { AreEmpty out.old.notes }
        requires roomy { AreRoomy self.now out.old.notes }
        requires once { AreOnce changes.now }
        ensures count { length out.new.notes ≡ length out.old.notes }
        ensures rooms { (b : ℕ) → (note_at out.new.notes b).room ≡ (note_at out.old.notes b).room }
        ensures noted { (b : ℕ) (members : List MemberShape) → b < length self.now.blocks
            → IsSetOf self.now.blocks b members
            → (note_at out.new.notes b).items ≡ noted changes.now (trg_at trgs.now b) 1 members }
    {
        let _ = &self.blocks;
        // Steps give on what they set last first, and most set attributes in their order: so most members come after the others.
        for i in (0..changes.len()).rev() {
            let change = changes[i];
            gather_change(change, self.touched(change.attr), trgs, out);
        }
    }
}
