//! The queues and the controls stand for each history, and calls, Dones, replies and takes come to what the definitions say. The functions
//! run nothing: each contract is a law.

ghost use Rattle.std.specs.Prelude.{◌≡◌, ◌<◌, ◌≤◌, ◌∷◌, [], ℕ, Bool, List, Some, map, length};
ghost use Rattle.std.specs.Prelude.{replicate};
ghost use Rattle.sv_base.specs.declared.numbers.CtlNo.{CtlNo};
ghost use Rattle.sv_base.specs.declared.value.Value.{Value};
ghost use Rattle.bay_model.specs.declared.answer.Output.{Output};
ghost use Rattle.bay_model.specs.Controls.{is_enhanced};
ghost use Rattle.bay_model.specs.Model.{Model, Call};
ghost use Rattle.bay_model.specs.Outputs.{output_of};
ghost use Rattle.bay_model.specs.Points.{Change, Deed, Point, Past, now, finished, answered};
ghost use Rattle.bay_model.specs.Calls.{went};
ghost use Rattle.bay_model.specs.Singles.{arrival};
ghost use Rattle.bay_model.specs.Takes.{deed_of_waiting};
ghost use Rattle.bay_model.specs.Waiting as queue;
ghost use Rattle.bay_model.specs.Waiting.{waiting, tests};
ghost use Rattle.bay_model.specs.Writes.{outcome_of_call};
ghost use Rattle.assoc_table.specs.declared.waiting.Waiting.{Waiting};
ghost use Rattle.assoc_table.specs.Coming.{Coming, came, IsComing};
ghost use Rattle.assoc_table.specs.Seats.{closed};
ghost use Rattle.assoc_table.specs.Standing.{waiting_of};
ghost use Rattle.assoc_table.specs.Tables.{IsNumber};
ghost use Rattle.control_core.specs.Controls.{due};
ghost use Rattle.control_core.specs.Standing.{point_of};
ghost use Rattle.control_core.specs.Tables.{at_moment, control_at, opened_of, after_deed};
ghost use Rattle.bay_queues.specs.Calling.{enhanced_in, outcome_at};
ghost use Rattle.bay_queues.specs.Queued.{Queued, IsQueued};
ghost use Rattle.bay_queues.specs.Standing.{Stands, coming_of, reply_coming, passed_by};
ghost use Rattle.bay_queues.specs.Taken.{after_take, oldest, next_of};

/// Where no association is open and each control is as it is configured they stand for the empty past. Where they stand for what was
/// before a point, they stand for its arrival with the controls at its moment, after what came of it for the point, and as they are for a
/// further arrival of the same step.
pub fn queues_stand()
    ensures opened { (c : Model)
        → Stands (record { rows = replicate 16 closed; table = opened_of c.controls }) c [] }
    ensures arrival { (c : Model) (n m : ℕ) (before : Past) (q : Queued) → Stands q c before
        → Stands (record q { table = at_moment (now (arrival n m ∷ before)) q.table }) c
        (arrival n m ∷ before) }
    ensures deed { (c : Model) (n m : ℕ) (d : Deed) (k : Coming) (before : Past) (q : Queued)
        → Stands q c (arrival n m ∷ before)
        → IsComing k c n d before → Stands (passed_by d k q) c (point_of n m d ∷ before) }
    ensures again { (c : Model) (n m : ℕ) (p : Point) (before : Past) (q : Queued)
        → m ≤ now (p ∷ before) → Stands q c (p ∷ before)
        → Stands q c (arrival n m ∷ p ∷ before) }
{}

/// A call comes to what it comes to by the definitions, and the controls with enhanced security are those of the model.
pub fn calls_come_to()
    ensures call { (c : Model) (a k : ℕ) (call : Call) (v : Value) (past : Past) (q : Queued)
        → Stands q c past → k < length c.controls
        → outcome_at q.table a k call v ≡ outcome_of_call c a k call v (went c k call a v past) }
    ensures enhanced { (c : Model) (k : ℕ) (past : Past) (q : Queued) → Stands q c past
        → k < length c.controls → enhanced_in q.table k ≡ is_enhanced c k }
{}

/// What is put at a Done and at a reply comes to wait, and for no other association.
pub fn terminations_come()
    ensures done { (c : Model) (n m : ℕ) (k : CtlNo) (good : Bool) (before : Past) (q : Queued)
        → Stands q c (arrival n m ∷ before)
        → IsQueued q.rows q.table → k.0 < length c.controls
        → ((a : ℕ) → due (control_at q.table.controls k.0).execution ≡ Some a → IsNumber a)
        → IsComing (coming_of (due (control_at q.table.controls k.0).execution) k good) c n
        (finished k.0 good) before }
    ensures reply { (c : Model) (n a : ℕ) (output : Output) (change : Change) (ks : List CtlNo)
        (before : Past) → IsNumber a
        → map (λ (k : CtlNo). k.0) ks ≡ tests c n before
        → IsComing (reply_coming a output ks) c n (answered a output change) before }
{}

/// What is taken is the output that waits longest by the definitions, and what is left stands after the point of the Take.
pub fn oldest_are_taken()
    ensures { (c : Model) (n m a : ℕ) (w : Waiting) (before : Past) (q : Queued)
        → Stands q c (arrival n m ∷ before) → IsQueued q.rows q.table
        → IsNumber a → oldest a q ≡ Some w
        → (next_of a q ≡ Some (output_of c (arrival n m ∷ before) (waiting_of w)))
        × ((rest : List queue.Waiting) × (waiting c a (arrival n m ∷ before) ≡ waiting_of w ∷ rest))
        × Stands (after_take a q) c (point_of n m (deed_of_waiting a (waiting_of w)) ∷ before) }
{}
