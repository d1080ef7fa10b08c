//! What the associations of a record are, by their numbers.

use crate::{Form, Heard, Told, tell};
use bay_model::Step;
use object_model::Model;
use run_record::LineView;
use std::alloc::{AllocError, Global};
use stream_lines::Shape;
use sv_base::AssocNo;

/// One more than the greatest number of an association.
const COUNT: usize = 17;

/// What the associations are, numbered 1 to 16; at 0 stands what no association is.
#[derive(Drop)]
pub struct Forms {
    forms: Vec<Form>,
}

impl std::marker::Model for Forms {
    ghost use Rattle.std.specs.Prelude.{◌≡◌, List, length};
    ghost use Rattle.std.specs.List.{All};
    ghost use Rattle.record_steps.specs.declared.form.Form.{Form};
    ghost use Rattle.record_steps.specs.Forms.{IsSized};

    ghost Value = { List Form };

    ghost view = { λ f. f.forms.items };

    ghost invariant = { λ f. (length f.forms.items ≡ 17) × All IsSized f.forms.items };
}

impl Forms {
    ghost use Rattle.std.specs.Prelude.{◌≡◌, ◌≤◌, ◌==◌, ℕ, false, [], IfOk, OnOk};
    ghost use Rattle.std.specs.List.{AllByRecursion};
    ghost use Rattle.run_record.specs.Grammar.{IsLine};
    ghost use Rattle.run_record.specs.Seen.{line_seen};
    ghost use Rattle.record_steps.specs.declared.form.Form.TheVariants.{Shut};
    ghost use Rattle.record_steps.specs.Forms.{Form as FormOf, IsSized, Stands, plain, shape_of};
    ghost use Rattle.record_steps.specs.Forms.{form_behind};
    ghost use Rattle.record_steps.specs.Own.{IsFittingPart};
    ghost use Rattle.record_steps.specs.Resolved.{association_of, told_of};
    ghost use Rattle.record_steps.specs.Streams.{made};
    ghost use Rattle.record_steps.specs.Telling.{telling, most_steps};
    ghost use Rattle.record_steps.specs.Formed.{form_in};

    /// None is open.
    pub fn new(alloc: Global) -> Result<Forms, AllocError>
        ensures { IfOk result (λ f. (a : ℕ) → form_in f a ≡ Shut) }
    {
        let mut forms = Vec::new(alloc);
        for _ in 0..COUNT {
            forms.push(Form::Shut)?;
        }
        Ok(Forms { forms })
    }

    /// The shape in which an association is answered.
    pub fn shape(&self, a: AssocNo) -> Shape
        requires { a.0 ≤ 16 }
        ensures shape { result ≡ shape_of (plain (form_in self.now a.0)) }
        ensures sized { IsSized (form_in self.now a.0) }
    {
        self.forms[a.0 as usize].shape()
    }

    /// What a line says, by what its association is, which becomes what it is after the line. A step is made in the slot, and the
    /// parts of a piece are put into the list, which is empty.
    pub fn tell(
        &mut self,
        alloc: Global,
        model: &Model,
        a: AssocNo,
        line: &LineView<'_>,
        step: &mut Step,
        heard: &mut Vec<Heard>,
    ) -> Result<Told, AllocError>
        requires number { a.0 ≤ 16 }
        requires ranges { IsLine (line_seen line.now) }
        requires none { heard.old.items ≡ [] }
        ensures told { (f : FormOf) → Stands (form_in self.old a.0) f
            → IfOk result (λ told. telling told step.new heard.new.items ≡ told_of model.now f
            (line_seen line.now)) }
        ensures form { (f : FormOf) → Stands (form_in self.old a.0) f
            → OnOk result (Stands (form_in self.new a.0)
            (form_behind (association_of (line_seen line.now)) (line_seen line.now) f)) }
        ensures others { (b : ℕ) → (a.0 == b) ≡ false → form_in self.new b ≡ form_in self.old b }
        ensures fits { OnOk result (AllByRecursion (IsFittingPart model.now) heard.new.items) }
        ensures few { OnOk result (made heard.new.items ≤ most_steps (line_seen line.now)) }
    {
        tell(
            alloc,
            model,
            &mut self.forms[a.0 as usize],
            line,
            step,
            heard,
        )
    }
}
