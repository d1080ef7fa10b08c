//! What is noted is the note of the model. The function runs nothing: its contract is a law.

ghost use Rattle.std.specs.Prelude.{◌≡◌, ℕ, List, map};
ghost use Rattle.bay_model.specs.declared.flags.Change.{Change};
ghost use Rattle.bay_model.specs.declared.tables.MemberShape.{MemberShape};
ghost use Rattle.bay_model.specs.Model.{Model};
ghost use Rattle.bay_model.specs.Points.{Point, Past};
ghost use Rattle.bay_model.specs.Parameters.{parameters_at};
ghost use Rattle.bay_model.specs.Sets.{members};
ghost use Rattle.bay_model.specs.Notes.{note as note_of};
ghost use Rattle.trigger_core.specs.Noted.{noted};
ghost use Rattle.trigger_core.specs.Points.{AreChanges, AreShapes, trg_of, mention};

/// What is noted of a point's changes are the members and the reasons of the note of that point, as the model of the bay
/// has it, for every block: with the shapes of its data set, and its trigger options.
pub fn notes_are_the_definition()
    ensures { (c : Model) (b : ℕ) (p : Point) (before : Past) (changes : List Change)
        (shapes : List MemberShape)
        → AreChanges c p.deed before changes → AreShapes c (members c b before) shapes
        → noted changes (trg_of (parameters_at c b before).trg_ops) 1 shapes ≡ map mention
        (note_of c b p before) }
{}
