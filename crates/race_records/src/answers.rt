//! The answers are written.

ghost use Rattle.std.specs.Prelude.{◌≡◌, ◌++◌, Some, OnOk};
ghost use Rattle.std.specs.List.{All};
ghost use Rattle.race_records.specs.Merged.{answer_to, answered, book_seen, TellsStep};
ghost use Rattle.race_records.specs.Merged.{IsAnswerable};

use crate::book::line_made;
use actor_scripts::Made;
use answer_text::lines_of;
use bay_model::{Answer, Step};
use object_model::Model;
use record_steps::Told;
use run_record::view_line;
use script_plans::StepLine;
use std::alloc::{AllocError, Global};

/// Adds the answer to the step that a line gives.
fn push_answer(
    alloc: Global,
    out: &mut Vec<u8>,
    model: &Model,
    line: &StepLine,
    answer: &Answer,
) -> Result<(), AllocError>
    requires { TellsStep model.now line.now }
    ensures { OnOk result (out.new.items ≡ out.old.items ++ answer_to model.now
        (Some line.now) answer.now) }
{
    let Ok(view) = view_line(line.text.as_slice()) else {
        unreachable!()
    };
    let mut step = Step::Tick;
    let told = line.form.tell(alloc, model, &view, &mut step)?;
    match told {
        Told::Step(_) => lines_of(alloc, model, line.form.shape(), &step, answer, out),
        _ => unreachable!(),
    }
}

/// Adds the answers to the steps that were made, in order.
pub fn write_answers(
    alloc: Global,
    out: &mut Vec<u8>,
    model: &Model,
    book: &[Vec<StepLine>],
    made: &[Made],
) -> Result<(), AllocError>
    requires { All (IsAnswerable model.now (book_seen book.now)) made.now }
    ensures { OnOk result (out.new.items ≡ out.old.items ++ answered model.now
        (book_seen book.now) made.now) }
{
    for step in made {
        let line = line_made(book, step);
        push_answer(alloc, out, model, line, &step.answer)?;
    }
    Ok(())
}
