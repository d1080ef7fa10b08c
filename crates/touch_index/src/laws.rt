//! What is gathered from touches is what is noted. The functions run nothing: their contracts are laws.

ghost use Rattle.std.specs.Prelude.{◌≡◌, ◌≢◌, ◌<◌, ℕ, List, [], length, slice_index_or};
ghost use Rattle.sv_base.specs.Filled.{Filled};
ghost use Rattle.bay_model.specs.declared.flags.Change.{Change};
ghost use Rattle.bay_model.specs.declared.flags.Trg.{Trg};
ghost use Rattle.bay_model.specs.declared.tables.MemberShape.{MemberShape};
ghost use Rattle.trigger_core.specs.Noted.{noted};
ghost use Rattle.touch_index.specs.declared.touch.Touch.{Touch};
ghost use Rattle.touch_index.specs.Indexed.{touches_in, touches_from, block_at, IsOwnedFrom};
ghost use Rattle.touch_index.specs.Gathered.{add_changes, AreOnce, AreApart, IsSetOf};

/// What is gathered from the touches of a point's changes is what is noted of the members of the block.
pub fn gathered_are_noted()
    ensures { (bs : List (Filled Touch)) (b : ℕ) (trg : Trg) (changes : List Change)
        (members : List MemberShape) → IsOwnedFrom 0 bs
        → (block_at bs b).items ≡ touches_from b 1 members → AreOnce changes
        → add_changes b trg (touches_in bs) changes [] ≡ noted changes trg 1 members }
{}

/// A block that no change touches has an empty note.
pub fn apart_blocks_are_quiet()
    ensures { (bs : List (Filled Touch)) (b : ℕ) (trg : Trg) (changes : List Change)
        (members : List MemberShape) → IsOwnedFrom 0 bs
        → IsSetOf bs b members → AreOnce changes → AreApart b (touches_in bs) changes
        → noted changes trg 1 members ≡ [] }
{}

/// Changes of which no two are of one attribute are each found once.
pub fn distinct_changes_are_once()
    ensures { (changes : List Change) → ((k j : ℕ) (d : Change) → k < j → j < length changes
        → (slice_index_or changes k d).attr.0 ≢ (slice_index_or changes j d).attr.0)
        → AreOnce changes }
{}
