//! What the calls make of a report block is what comes of a point, and time brings nothing before its moment. The functions run
//! nothing: their contracts are laws.

ghost use Rattle.std.specs.Prelude.{◌≡◌, ◌≤◌, ℕ, List, [], Ok};
ghost use Rattle.bay_model.specs.Points.{Deed, wrote};
ghost use Rattle.brcb_state.specs.Standing.{after_deed};
ghost use Rattle.brcb_state.specs.declared.told.Effect.{Effect};
ghost use Rattle.window_core.specs.Pieces.{Piece};
ghost use Rattle.report_block.specs.declared.block.ReportBlock.{ReportBlock};
ghost use Rattle.report_block.specs.declared.components.Written.{Written};
ghost use Rattle.report_block.specs.Coming.{arrived, came, noting};
ghost use Rattle.report_block.specs.Components.{after_any, coming_by};
ghost use Rattle.report_block.specs.Writes.{set_after};
ghost use Rattle.report_block.specs.Due.{due_at, IsBefore};
ghost use Rattle.report_block.specs.Events.{after_noting};

/// An event makes of a block, whose attributes its deed leaves, what comes of the deed with the event's note; and an accepted write
/// what comes of it with its effect, and the number of the data set that a written DatSet names.
pub fn calls_are_what_comes()
    ensures event { (b : ℕ) (d : Deed) (now step : ℕ) (ps : List Piece) (part : ReportBlock)
        → after_deed b d part.ring.front now [] part.block ≡ part.block
        → came b d now step (noting ps) part ≡ after_noting now step ps part }
    ensures write { (b : ℕ) (w : Written) (now step : ℕ) (all : List Piece)
        (part : ReportBlock) (e : Effect)
        → record (came b (wrote w.by.0 b w.comp w.value.now) now step
        (coming_by all w.owner e) part) { set = set_after w.comp w.named part.set }
        ≡ after_any w now step all part (Ok e) }
{}

/// Before the moment at which a block has something due time leaves the block as it is, and that stays the moment.
pub fn nothing_comes_early()
    ensures idle { (was now step : ℕ) (all : List Piece) (part : ReportBlock)
        → IsBefore now (due_at was part) → arrived was now step all part ≡ part }
    ensures waits { (was now : ℕ) (part : ReportBlock) → was ≤ now → IsBefore now (due_at was part)
        → due_at now part ≡ due_at was part }
{}
