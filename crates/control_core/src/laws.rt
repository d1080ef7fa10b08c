//! The controls stand for each history, and each call comes to what the definitions say. The functions run nothing: each
//! contract is a law.

ghost use Rattle.std.specs.Prelude.{◌≡◌, ◌↔◌, ◌<◌, ◌≤◌, ◌∷◌, [], ℕ, Bool, Option, Some, None, map};
ghost use Rattle.std.specs.Prelude.{length, if◌then◌else◌};
ghost use Rattle.std.specs.Option.{option_map};
ghost use Rattle.sv_base.specs.declared.value.Value.{Value};
ghost use Rattle.bay_model.specs.declared.answer.Output.TheVariants as outputs;
ghost use Rattle.bay_model.specs.Model.{Model, Call, operate};
ghost use Rattle.bay_model.specs.Points.{Deed, Point, Past, now, called};
ghost use Rattle.bay_model.specs.Calls.{went, can_select, Went, barred, ComesTo};
ghost use Rattle.bay_model.specs.Controls.{execution};
ghost use Rattle.bay_model.specs.Waiting.{ends_for, ending, tests_of};
ghost use Rattle.bay_model.specs.Outputs.{output_of, error_of};
ghost use Rattle.bay_model.specs.Singles.{arrival, act_of};
ghost use Rattle.control_core.specs.Controls.{ControlState, went_at, can_select_at, due};
ghost use Rattle.control_core.specs.Controls.{terminations, error_at};
ghost use Rattle.control_core.specs.Answers.{effect_at, act_for, tests_for};
ghost use Rattle.control_core.specs.Tables.{Table, control_at, opened_of, at_moment, after_deed};
ghost use Rattle.control_core.specs.Standing.{Stands, put_for, point_of};

/// Controls that are opened stand for the empty past. Where they stand for what was before a point, then after its moment they
/// stand for its arrival, after what came of it for the point, and after a further moment of the same step for that.
pub fn controls_stand()
    ensures opened { (c : Model) → Stands (opened_of c.controls) c [] }
    ensures arrival { (c : Model) (n m : ℕ) (before : Past) (t : Table) → Stands t c before
        → Stands (at_moment (now (arrival n m ∷ before)) t) c (arrival n m ∷ before) }
    ensures deed { (c : Model) (n m : ℕ) (d : Deed) (before : Past) (t : Table)
        → Stands t c (arrival n m ∷ before)
        → Stands (after_deed d t) c (point_of n m d ∷ before) }
    ensures again { (c : Model) (n m : ℕ) (q : Point) (before : Past) (t : Table)
        → m ≤ now (q ∷ before) → Stands t c (q ∷ before)
        → Stands t c (arrival n m ∷ q ∷ before) }
{}

/// Calls come to what they come to where the controls stand; the relation of what they come to gives that one outcome.
pub fn calls_are_judged()
    ensures went { (c : Model) (k : ℕ) (call : Call) (a : ℕ) (v : Value) (past : Past) (t : Table)
        → Stands t c past → k < length c.controls
        → went_at t.moment call a v (control_at t.controls k) ≡ went c k call a v past }
    ensures one { (c : Model) (k : ℕ) (call : Call) (a : ℕ) (v : Value) (past : Past) (t : Table)
        (r : Went) → Stands t c past → k < length c.controls
        → ComesTo c k call a v past r ↔ (r ≡ went_at t.moment call a v (control_at t.controls k)) }
    ensures select { (c : Model) (k : ℕ) (past : Past) (t : Table) → Stands t c past
        → k < length c.controls
        → can_select_at t.moment (control_at t.controls k) ≡ can_select c k past }
    ensures error { (c : Model) (k : ℕ) (call : Call) (v : Value) (cause : ℕ) (past : Past)
        (t : Table) → Stands t c past → k < length c.controls
        → error_at (control_at t.controls k).config.reference call v cause
        ≡ error_of c k call v cause }
    ensures acts { (c : Model) (a k : ℕ) (v : Value) (past : Past) (t : Table) → Stands t c past
        → k < length c.controls
        → act_of (called a k operate v) ≡ act_for a k v (effect_at v (control_at t.controls k)) }
    ensures tests { (c : Model) (a k : ℕ) (v : Value) (past : Past) (t : Table) → Stands t c past
        → k < length c.controls
        → tests_of c (called a k operate v) ≡ tests_for k (effect_at v (control_at t.controls k)) }
{}

/// A Done puts a termination for the association for which one is due, and the termination that is given is that of what runs.
pub fn terminations_are_put()
    ensures put { (c : Model) (a k : ℕ) (good : Bool) (past : Past) (t : Table) → Stands t c past
        → k < length c.controls
        → put_for a k good (due (control_at t.controls k).execution) ≡ ends_for a k good
        (execution c k past) }
    ensures given { (c : Model) (k : ℕ) (good : Bool) (past : Past) (t : Table) → Stands t c past
        → k < length c.controls → ((execution c k past ≡ None) → ⊥)
        → Some (output_of c past (ending k good)) ≡ option_map outputs.Termination
        (terminations (record { 0 = k }) good (control_at t.controls k)) }
{}
