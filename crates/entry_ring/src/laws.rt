//! A buffer holds what is retained of each history. The function runs nothing: its contract is a law.

ghost use Rattle.std.specs.Prelude.{◌≡◌, ◌≤◌, [], ◌∷◌, ℕ, List};
ghost use Rattle.bay_model.specs.Model.{Model};
ghost use Rattle.bay_model.specs.Lookups.{block_of};
ghost use Rattle.bay_model.specs.Points.{Point, Past, now};
ghost use Rattle.bay_model.specs.Entries.{Entry, selected, appended};
ghost use Rattle.bay_model.specs.Singles.{arrival};
ghost use Rattle.entry_ring.specs.Ringed.{Ringed};
ghost use Rattle.entry_ring.specs.Standing.{Holds, after_all, after_point, empty};

/// A buffer that is opened with a block's capacity holds what is retained of the empty history; and where it holds what is
/// retained up to a point, and the next point brings these entries, then after them, and a purge where the point is one, it
/// holds what is retained up to that point. The same in two parts: with the entries that its moment brings it holds what is
/// retained up to the arrival of the point; from there, with those that came of it and a purge where it is one, up to the point.
/// A further arrival at the same moment brings nothing.
pub fn retained_entries_are_held()
    ensures opened { (c : Model) (b : ℕ) → Holds (empty (block_of c b).capacity) c b [] }
    ensures point { (c : Model) (b : ℕ) (p : Point) (before : Past) (r : Ringed) (es : List Entry)
        → Holds r c b before → selected c b (p ∷ before) ≡ appended (selected c b before) es
        → Holds (after_point c b p before r es) c b (p ∷ before) }
    ensures arrival { (c : Model) (b m n : ℕ) (before : Past) (r : Ringed) (es : List Entry)
        → Holds r c b before → selected c b (arrival n m ∷ before) ≡ appended
        (selected c b before) es → Holds (after_all r es) c b (arrival n m ∷ before) }
    ensures deed { (c : Model) (b : ℕ) (p : Point) (before : Past) (r : Ringed) (es : List Entry)
        → Holds r c b (arrival p.step p.moment ∷ before)
        → selected c b (p ∷ before) ≡ appended (selected c b (arrival p.step p.moment ∷ before)) es
        → Holds (after_point c b p before r es) c b (p ∷ before) }
    ensures again { (c : Model) (b m n : ℕ) (q : Point) (before : Past) (r : Ringed)
        → m ≤ now (q ∷ before) → Holds r c b (q ∷ before) → Holds r c b (arrival n m ∷ q ∷ before) }
{}
