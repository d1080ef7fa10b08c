//! What an association of a record is.

ghost use Rattle.run_record.specs.Seen.{line_seen};
ghost use Rattle.run_record.specs.Grammar.{IsForm, IsLine};
ghost use Rattle.record_steps.specs.Forms as specs;
ghost use Rattle.record_steps.specs.Forms.{IsSized, Stands, opened_form, form_behind};
ghost use Rattle.record_steps.specs.Resolved.{association_of};
ghost use Rattle.record_steps.specs.Telling.{IsPlain};

use osi_stack::{Line, Upper};
use run_record::{LineView, OpenForm};
use stream_lines::Shape;

/// What an association of a record is.
#[derive(Debug, Drop)]
pub enum Form {
    /// It isn't open.
    Shut,
    /// It writes components of blocks, and takes reports as they are.
    Direct,
    /// It exchanges MMS PDUs (ISO 9506-2) of at most n octets, 1024 to 65000.
    Mms(u32),
    /// It sends a stream, and isn't connected yet.
    Dialling(Upper),
    /// It sends a stream, and is connected on this line.
    Wire(Line, Upper),
}

impl Form {
    ghost use Rattle.std.specs.Prelude.{◌≡◌};
    ghost use Rattle.record_steps.specs.Forms.{is_direct as is_direct_form, plain, shape_of};

    /// The shape in which it is answered.
    pub fn shape(&self) -> Shape
        ensures { result ≡ shape_of (plain self.now) }
    {
        match self {
            Form::Shut | Form::Direct | Form::Dialling(_) => Shape::Direct,
            Form::Mms(size) => Shape::Mms(*size),
            Form::Wire(line, _) => Shape::Wire(*line),
        }
    }

    /// It writes components.
    pub fn is_direct(&self) -> bool
        ensures { result ≡ is_direct_form (plain self.now) }
    {
        matches!(self, Form::Direct)
    }
}

/// What an association that is opened so is: one of a stream dials.
fn opened(asked: OpenForm) -> Form
    requires { IsForm asked }
    ensures form { Stands result (opened_form asked) }
    ensures sized { IsSized result }
{
    match asked {
        OpenForm::Direct => Form::Direct,
        OpenForm::Mms(size) => Form::Mms(size),
        OpenForm::Wire => Form::Dialling(Upper::new()),
    }
}

/// Makes of the association that a line names what it is after the line, if that is no piece of a stream.
pub fn pass(line: &LineView<'_>, form: &mut Form)
    requires ranges { IsLine (line_seen line.now) }
    requires plain { IsPlain (line_seen line.now) }
    requires sized { IsSized form.old }
    ensures form { (f : specs.Form) → Stands form.old f
        → Stands form.new (form_behind (association_of (line_seen line.now))
        (line_seen line.now) f) }
    ensures sized { IsSized form.new }
{
    match line {
        LineView::Open { form: asked, .. } => *form = opened(*asked),
        LineView::Lost(_) => *form = Form::Shut,
        _ => {}
    }
}
