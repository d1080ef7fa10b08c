//! What a race comes to.

ghost use Rattle.std.specs.Prelude.{◌≡◌, List, IfOk};
ghost use Rattle.std.specs.List.{All};
ghost use Rattle.script_plans.specs.Plans.{Plan as ThePlan};
ghost use Rattle.actor_scripts.specs.declared.script.Script.{Script as ThePart};
ghost use Rattle.bay_model.specs.Points.{least_moment};
ghost use Rattle.std.specs.Prelude.{◌++◌, codes};
ghost use Rattle.race_records.specs.Merged.{book_seen, merged, record_with, answered, IsAnswerable};
ghost use Rattle.race_settling.specs.Races.{IsOfPlan, IsOfRace};
ghost use Rattle.race_settling.specs.Settled.{Performs};

use actor_scripts::{Made, merge};
use object_model::Model;
use race_records::{lacks_memory, lowest_full, write_answers, write_record};
use record_outcome::status::{Judged, Status};
use script_plans::StepLine;
use script_threads::Raced;
use std::alloc::{AllocError, Global};

/// The record of steps that were made, and the answers to it.
fn record_of(
    alloc: Global,
    model: &Model,
    text: &[u8],
    book: &[Vec<StepLine>],
    made: &[Made],
) -> Result<Vec<u8>, AllocError>
    requires { All (IsAnswerable model.now (book_seen book.now)) made.now }
    ensures { IfOk result (λ v. v.items ≡ record_with text.now
        (merged (book_seen book.now) least_moment made.now) ++
        (answered model.now (book_seen book.now) made.now ++ codes "end\n")) }
{
    let mut out = Vec::new(alloc);
    write_record(&mut out, text, book, made)?;
    write_answers(alloc, &mut out, model, book, made)?;
    out.extend_from_slice(b"end\n")?;
    Ok(out)
}

/// What a race comes to: the record that the scripts made with its answers, or the status where a turn met a full queue.
pub fn settle(
    alloc: Global,
    model: &Model,
    text: &[u8],
    book: &[Vec<StepLine>],
    raced: Raced,
) -> Judged<Vec<u8>>
    requires plan { (p : ThePlan) × (ss : List ThePart) × IsOfPlan p model.now text.now
        (book_seen book.now) ss × IsOfRace p.config ss raced }
    ensures { (p : ThePlan) (ss : List ThePart)
        → IsOfPlan p model.now text.now (book_seen book.now) ss → IsOfRace p.config ss raced
        → IfOk result (Performs p) }
{
    let Raced { total, parts } = raced;
    if lacks_memory(&parts) {
        drop(parts);
        return Err(AllocError);
    }
    if let Some(line) = lowest_full(book, &parts) {
        drop(parts);
        return Ok(Err(Status::Limit { which: 2, line }));
    }
    let made = merge(alloc, parts, total)?;
    let out = record_of(alloc, model, text, book, &made)?;
    Ok(Ok(out))
}
