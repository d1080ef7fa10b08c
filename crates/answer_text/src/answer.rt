//! The lines of an answer.

ghost use Rattle.std.specs.Prelude.{◌≡◌, ◌≤◌, ◌++◌, decimal, length, take, OnOk, OnErr};
ghost use Rattle.sv_base.specs.declared.config.Config.{Config};
ghost use Rattle.bay_model.specs.declared.answer.Answer.TheVariants.{Wrote};
ghost use Rattle.stream_lines.specs.Shapes.{IsShape};
ghost use Rattle.answer_text.specs.Texts.{step_association, output_lines, answer_lines};
ghost use Rattle.answer_text.specs.Texts.{lines_of as text_of};

use crate::acts::push_acts;
use crate::pdus::{push_output, push_sent};
use crate::report::push_report;
use bay_model::{Answer, Output, Step};
use object_model::Model;
use std::alloc::{AllocError, Global};
use stream_lines::{Shape, push_number};
use sv_base::AssocNo;

/// Writes the outcome of a write.
fn push_outcome(out: &mut Vec<u8>, a: AssocNo, outcome: Result<(), u8>) -> Result<(), AllocError>
    ensures ok { (c : Config) (shape : Shape)
        → OnOk result (out.new.items ≡ out.old.items ++ answer_lines c shape a.0 (Wrote outcome)) }
    ensures err { OnErr result (take (length out.old.items) out.new.items ≡ out.old.items) }
{
    push_number(out, u64::from(a.0))?;
    match outcome {
        Ok(()) => out.extend_from_slice(b" ok\n"),
        Err(code) => {
            out.extend_from_slice(b" refused ")?;
            push_number(out, u64::from(code))?;
            out.push(b'\n')?;
            Ok(())
        }
    }
}

/// Writes an answer of one word.
fn push_word(out: &mut Vec<u8>, a: AssocNo, word: &[u8]) -> Result<(), AllocError>
    ensures ok { OnOk result (out.new.items ≡ out.old.items ++ (decimal a.0 ++ word.now)) }
    ensures err { OnErr result (take (length out.old.items) out.new.items ≡ out.old.items) }
{
    push_number(out, u64::from(a.0))?;
    out.extend_from_slice(word)
}

/// Writes what an association took.
fn push_taken(
    alloc: Global,
    out: &mut Vec<u8>,
    model: &Model,
    shape: Shape,
    a: AssocNo,
    output: &Output,
) -> Result<(), AllocError>
    requires { IsShape shape }
    ensures ok { OnOk result (out.new.items ≡ out.old.items
        ++ output_lines model.now shape a.0 output.now) }
    ensures err { OnErr result (take (length out.old.items) out.new.items ≡ out.old.items) }
{
    match (shape, output) {
        (Shape::Mms(size), _) => push_output(alloc, out, model, size, a, output),
        (Shape::Wire(line), _) => push_sent(alloc, out, model, line, a, output),
        (Shape::Direct, Output::Report(report)) => push_report(out, model, a, report),
        (Shape::Direct, _) => Ok(()),
    }
}

/// Writes the lines of an answer to an association.
fn push_lines(
    alloc: Global,
    out: &mut Vec<u8>,
    model: &Model,
    shape: Shape,
    a: AssocNo,
    answer: &Answer,
) -> Result<(), AllocError>
    requires { IsShape shape }
    ensures ok { OnOk result (out.new.items ≡ out.old.items
        ++ answer_lines model.now shape a.0 answer.now) }
    ensures err { OnErr result (take (length out.old.items) out.new.items ≡ out.old.items) }
{
    match answer {
        Answer::Wrote(outcome) => push_outcome(out, a, *outcome),
        Answer::Empty => push_word(out, a, b" empty\n"),
        Answer::Closed => push_word(out, a, b" closed\n"),
        Answer::Taken(output) => push_taken(alloc, out, model, shape, a, output),
        Answer::Asked(acts) => push_acts(alloc, out, model, acts.as_slice()),
        _ => Ok(()),
    }
}

/// The association that a step is of, and 0 where it is of none.
fn association(step: &Step) -> AssocNo
    ensures { result.0 ≡ step_association step.now }
{
    match step {
        Step::Open { a, .. } => *a,
        Step::Ask(a, _) => *a,
        Step::Write(a, ..) => *a,
        Step::Take(a) => *a,
        Step::Lost(a) => *a,
        _ => AssocNo(0),
    }
}

/// Adds the lines of a step's answer, in the shape of its association. Fails only when out of memory, and then `out` stays
/// as it was.
pub fn lines_of(
    alloc: Global,
    model: &Model,
    shape: Shape,
    step: &Step,
    answer: &Answer,
    out: &mut Vec<u8>,
) -> Result<(), AllocError>
    requires { IsShape shape }
    ensures ok { OnOk result (out.new.items ≡ out.old.items
        ++ text_of model.now shape step.now answer.now) }
    ensures err { OnErr result (out.new.items ≡ out.old.items) }
{
    let before = out.len();
    let done = push_lines(alloc, out, model, shape, association(step), answer);
    if done.is_err() {
        out.truncate(before);
    }
    done
}
