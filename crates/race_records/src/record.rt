//! The record is written.

ghost use Rattle.std.specs.Prelude.{◌≡◌, ◌++◌, Some, OnOk};
ghost use Rattle.std.specs.List.{All};
ghost use Rattle.bay_model.specs.Points.{least_moment};
ghost use Rattle.record_outcome.specs.Histories.{octets_of};
ghost use Rattle.race_records.specs.Merged.{at_lines, lines_behind, merged, record_with, book_seen};
ghost use Rattle.race_records.specs.Merged.{HasLine};

use crate::book::line_made;
use actor_scripts::Made;
use run_record::{RecLine, write_line};
use script_plans::StepLine;
use std::alloc::AllocError;
use sv_base::Moment;

/// Adds an `at` line, where the moment differs from that of the line before.
fn push_moment(out: &mut Vec<u8>, was: Moment, now: Moment) -> Result<(), AllocError>
    ensures { OnOk result (out.new.items ≡ out.old.items ++ octets_of (at_lines was now)) }
{
    if was == now {
        return Ok(());
    }
    write_line(&RecLine::At(now), out)
}

/// Adds a line after one of this moment.
fn push_line(out: &mut Vec<u8>, was: Moment, line: &StepLine) -> Result<(), AllocError>
    ensures { OnOk result (out.new.items ≡ out.old.items ++ octets_of
        (lines_behind was (Some line.now))) }
{
    push_moment(out, was, line.moment)?;
    out.extend_from_slice(line.text.as_slice())?;
    out.push(b'\n')?;
    Ok(())
}

/// Adds the lines of steps that were made.
fn push_lines(out: &mut Vec<u8>, book: &[Vec<StepLine>], made: &[Made]) -> Result<(), AllocError>
    requires { All (HasLine (book_seen book.now)) made.now }
    ensures { OnOk result (out.new.items ≡ out.old.items ++ octets_of
        (merged (book_seen book.now) least_moment made.now)) }
{
    let mut was = Moment::first();
    for step in made {
        let line = line_made(book, step);
        push_line(out, was, line)?;
        was = line.moment;
    }
    Ok(())
}

/// Adds a record: the line `record 1`, the lines of a configuration, those of the steps that were made, with an `at` line exactly
/// where the moment differs from that of the line before, and `end`.
pub fn write_record(
    out: &mut Vec<u8>,
    text: &[u8],
    book: &[Vec<StepLine>],
    made: &[Made],
) -> Result<(), AllocError>
    requires { All (HasLine (book_seen book.now)) made.now }
    ensures { OnOk result (out.new.items ≡ out.old.items ++ record_with text.now
        (merged (book_seen book.now) least_moment made.now)) }
{
    out.extend_from_slice(b"record 1\n")?;
    out.extend_from_slice(text)?;
    push_lines(out, book, made)?;
    out.extend_from_slice(b"end\n")
}
