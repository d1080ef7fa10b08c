//! What the association of a script is, and what its lines say.

use bay_model::Step;
use object_model::Model;
use record_steps::{Form, Told, tell};
use run_record::{LineView, OpenForm};
use std::alloc::{AllocError, Global};
use stream_lines::Shape;

/// What the association of a script is. It has no stream; and a script of the process has no association.
#[derive(Clone, Copy, Debug, PartialEq, Eq)]
pub enum ScriptForm {
    /// It isn't open.
    Shut,
    /// It writes components of blocks, and takes reports as they are.
    Direct,
    /// It exchanges MMS PDUs (ISO 9506-2) of at most n octets, 1024 to 65000.
    Mms(u32),
}

impl ScriptForm {
    ghost use Rattle.std.specs.Prelude.{◌≡◌, List, IfOk};
    ghost use Rattle.run_record.specs.Grammar.{IsLine};
    ghost use Rattle.run_record.specs.Seen.{line_seen};
    ghost use Rattle.record_steps.specs.Forms.{IsSized, Stands, shape_of};
    ghost use Rattle.record_steps.specs.Resolved.{told_of};
    ghost use Rattle.record_steps.specs.Telling.{telling};
    ghost use Rattle.record_steps.specs.declared.heard.Heard.{Heard as TheHeard};
    ghost use Rattle.script_plans.specs.Forms.{form_in, form_passed, IsFit};

    /// What it is in a record.
    fn in_record(self) -> Form
        requires { IsFit self }
        ensures form { Stands result (form_in self) }
        ensures sized { IsSized result }
    {
        match self {
            ScriptForm::Shut => Form::Shut,
            ScriptForm::Direct => Form::Direct,
            ScriptForm::Mms(size) => Form::Mms(size),
        }
    }

    /// The shape in which it is answered.
    pub fn shape(self) -> Shape
        ensures { result ≡ shape_of (form_in self) }
    {
        match self {
            ScriptForm::Shut | ScriptForm::Direct => Shape::Direct,
            ScriptForm::Mms(size) => Shape::Mms(size),
        }
    }

    /// What it is after a line of its script.
    pub fn behind(self, line: &LineView<'_>) -> ScriptForm
        requires ranges { IsLine (line_seen line.now) }
        requires fit { IsFit self }
        ensures form { result ≡ form_passed (line_seen line.now) self }
        ensures fit { IsFit result }
    {
        match line {
            LineView::Open { form, .. } => match form {
                OpenForm::Direct => ScriptForm::Direct,
                OpenForm::Mms(size) => ScriptForm::Mms(*size),
                OpenForm::Wire => self,
            },
            LineView::Lost(_) => ScriptForm::Shut,
            _ => self,
        }
    }

    /// What a line says, where its association is this. A step is made in the slot.
    pub fn tell(
        self,
        alloc: Global,
        model: &Model,
        line: &LineView<'_>,
        step: &mut Step,
    ) -> Result<Told, AllocError>
        requires ranges { IsLine (line_seen line.now) }
        requires fit { IsFit self }
        ensures { IfOk result (λ told. (heard : List TheHeard)
            × (telling told step.new heard ≡ told_of model.now (form_in self)
            (line_seen line.now))) }
    {
        let mut heard = Vec::new(alloc);
        let mut form = self.in_record();
        let told = tell(alloc, model, &mut form, line, step, &mut heard);
        drop(form);
        drop(heard);
        told
    }
}
