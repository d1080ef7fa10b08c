//! A block stands for each history. The functions run nothing: each contract is a law.

ghost use Rattle.std.specs.Prelude.{◌≡◌, ◌<◌, [], ◌∷◌, ℕ, Bool, List, Option, None, Some};
ghost use Rattle.std.specs.Prelude.{if◌then◌else◌};
ghost use Rattle.std.specs.Option.{option_map};
ghost use Rattle.sv_base.specs.declared.numbers.AssocNo.{AssocNo};
ghost use Rattle.sv_base.specs.declared.value.Value.{Value};
ghost use Rattle.sv_base.specs.declared.components.Comp.{Comp};
ghost use Rattle.bay_model.specs.Model.{Model};
ghost use Rattle.bay_model.specs.Lookups.{block_of};
ghost use Rattle.bay_model.specs.Points.{Point, Past, wrote, now};
ghost use Rattle.bay_model.specs.Associations.{address};
ghost use Rattle.bay_model.specs.Entries.{selected};
ghost use Rattle.bay_model.specs.Retained.{front};
ghost use Rattle.bay_model.specs.Components.{read_component};
ghost use Rattle.brcb_state.specs.Components.{read_of};
ghost use Rattle.bay_model.specs.Singles.{arrival};
ghost use Rattle.bay_model.specs.BlockWrites.{write_component};
ghost use Rattle.bay_model.specs.Blocks.{next, is_enabled_by, is_overflown, sq_num};
ghost use Rattle.brcb_state.specs.declared.block.Block.{Block};
ghost use Rattle.brcb_state.specs.declared.told.Next.{Next};
ghost use Rattle.brcb_state.specs.Changes.{configured, effect_of, written, next_to};
ghost use Rattle.brcb_state.specs.Refusals.{answer_to, names_nothing, is_foreign};
ghost use Rattle.brcb_state.specs.Standing.{Stands, OpensNoEnabler, writers_address, kept_at};
ghost use Rattle.brcb_state.specs.Standing.{is_known, after_deed, outcome_of, newest_of, Tells};

/// A block that is opened as it is configured stands for the empty past. Where it stands for a past, it stands for the arrival
/// of the next point as it is; from there, after what came of the point, for the past up to that point, unless the point opens
/// the association that has enabled it. An accepted write takes the front at its arrival.
pub fn blocks_stand()
    ensures opened { (c : Model) (b : ℕ) → Stands (configured (block_of c b)) c b [] }
    ensures arrival { (c : Model) (b m n : ℕ) (before : Past) (s : Block) → Stands s c b before
        → Stands s c b (arrival n m ∷ before) }
    ensures point { (c : Model) (b : ℕ) (p : Point) (before : Past) (s : Block)
        → OpensNoEnabler b p.deed before → Stands s c b (arrival p.step p.moment ∷ before)
        → Stands (after_deed b p.deed (front c b (p ∷ before)) (now (p ∷ before))
        (writers_address p.deed before) s) c b (p ∷ before) }
    ensures accepted { (c : Model) (a : AssocNo) (b : ℕ) (comp : Comp) (v : Value) (step moment : ℕ)
        (before : Past) (s : Block)
        → Stands s c b (arrival step moment ∷ before)
        → Stands (written a (address a.0 before) (now (arrival step moment ∷ before)) comp v
        (front c b (arrival step moment ∷ before)) s) c b
        (record { moment = moment; step = step; deed = wrote a.0 b comp v } ∷ before) }
{}

/// A write is answered as it is where the block stands, with the entries that are there at its arrival.
pub fn writes_are_answered()
    ensures { (c : Model) (a : AssocNo) (b : ℕ) (comp : Comp) (v : Value) (past : Past) (s : Block)
        → Stands s c b past
        → outcome_of (wrote a.0 b comp v)
        (answer_to a (is_foreign (address a.0 past) (now past) s) comp v
        (names_nothing (kept_at c b past) (is_known c past v) comp v) s)
        ≡ write_component c a.0 b comp v past }
{}

/// The report that is next to an association is that of the next entry where it has enabled the block, with its mark and
/// SqNum, and else none.
pub fn next_reports_are_told()
    ensures { (c : Model) (a : AssocNo) (b : ℕ) (past : Past) (s : Block)
        → Stands s c b past
        → next_to a (kept_at c b past) s ≡ option_map
        (λ n. record { id = n; ovfl = is_overflown c b past; sq = sq_num b past })
        (if is_enabled_by b a.0 past then next c b past else None) }
{}

/// A component reads as it is where the block stands.
pub fn components_are_read()
    ensures { (c : Model) (b : ℕ) (comp : Comp) (past : Past) (s : Block)
        → Stands s c b past → read_of comp (kept_at c b past) (newest_of (selected c b past))
        (now past) s ≡ read_component c b comp past }
{}

/// An accepted write purges, is a purging change, and is a general interrogation exactly where its effect says so; it
/// enables and disables the block likewise.
pub fn effects_are_told()
    ensures { (c : Model) (a : AssocNo) (b : ℕ) (comp : Comp) (v : Value) (moment step : ℕ)
        (before : Past) (s : Block)
        → Stands s c b (arrival step moment ∷ before)
        → Tells (effect_of comp v s) c b (record {
          moment = moment;
          step = step;
          deed = wrote a.0 b comp v;
        }) before }
{}
