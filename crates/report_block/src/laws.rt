//! A report block stands for each history. The function runs nothing: its contract is a law of every configuration, block, past and
//! kind of point.

ghost use Rattle.std.specs.Prelude.{◌≡◌, ◌≤◌, ℕ, true, ◌==◌, List, [], ◌∷◌, None};
ghost use Rattle.bay_model.specs.Model.{Model};
ghost use Rattle.bay_model.specs.Lookups.{block_of};
ghost use Rattle.bay_model.specs.Points.{Deed, Point, Past, now};
ghost use Rattle.bay_model.specs.Breaks.{integrity};
ghost use Rattle.bay_model.specs.Notes.{all_members, no_reason};
ghost use Rattle.bay_model.specs.Singles.{arrival};
ghost use Rattle.brcb_state.specs.Changes.{configured};
ghost use Rattle.entry_ring.specs.Standing.{empty as empty_ring};
ghost use Rattle.window_core.specs.Pieces.{Piece};
ghost use Rattle.window_core.specs.Windows.{empty as empty_window};
ghost use Rattle.window_core.specs.Points.{at};
ghost use Rattle.report_block.specs.declared.block.ReportBlock.{ReportBlock};
ghost use Rattle.report_block.specs.Standing.{Stands};
ghost use Rattle.report_block.specs.Coming.{Coming, arrived, came, AreOf, IsComing};

/// A block as it is configured stands for the beginning. Where it stands for a past, it stands for the arrival of the next point
/// after time has passed; from there, after what came of the point, for the point itself; and as it is for a further arrival at the
/// same moment. Time makes nothing of a block without an integrity period that has gathered nothing.
pub fn report_blocks_stand()
    ensures opened { (c : Model) (b : ℕ) (part : ReportBlock)
        → part.block ≡ configured (block_of c b) → part.ring ≡ empty_ring (block_of c b).capacity
        → part.window ≡ empty_window part.window.members (block_of c b).initial.buf_tm
        → part.origin ≡ None
        → Stands part c b [] }
    ensures arrival { (c : Model) (b m n : ℕ) (before : Past) (part : ReportBlock)
        (all : List Piece)
        → Stands part c b before → (integrity c b (arrival n m) before ≡ true
        → AreOf all (all_members c b (record no_reason { intg = true }) before before))
        → Stands (arrived (now before) (now (arrival n m ∷ before)) n all part) c b
        (arrival n m ∷ before) }
    ensures deed { (c : Model) (b m n : ℕ) (d : Deed) (before : Past)
        (part : ReportBlock) (k : Coming)
        → Stands part c b (arrival n m ∷ before) → IsComing k c b m n d before
        → Stands (came b d (now (arrival n m ∷ before)) n k part) c b (at n m d ∷ before) }
    ensures again { (c : Model) (b m n : ℕ) (q : Point) (before : Past) (part : ReportBlock)
        → m ≤ now (q ∷ before) → Stands part c b (q ∷ before)
        → Stands part c b (arrival n m ∷ q ∷ before) }
    ensures idle { (was now step : ℕ) (all : List Piece) (part : ReportBlock)
        → (part.block.options.intg_pd == 0) ≡ true → part.window.gathered ≡ None
        → arrived was now step all part ≡ part }
{}
