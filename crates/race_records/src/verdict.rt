//! What came of a race: whether memory was lacking, and which line met a full queue.

ghost use Rattle.std.specs.Prelude.{◌≡◌};
ghost use Rattle.race_records.specs.Merged.{book_seen};
ghost use Rattle.race_records.specs.Verdicts.{number_at, full_line as full_line_of};
ghost use Rattle.race_records.specs.Verdicts.{lesser as lesser_of, lowest_full as lowest_of};
ghost use Rattle.race_records.specs.Verdicts.{lacks_memory as lacks_memory_in};

use actor_scripts::Part;
use bay_histories::StepFault;
use script_plans::StepLine;

/// The number of an actor's line after that many; none where it has no such line.
fn number_of(book: &[Vec<StepLine>], actor: u32, index: usize) -> Option<u64>
    ensures { result ≡ number_at (book_seen book.now) actor index }
{
    let lines = book.get(actor as usize)?;
    let line = lines.get(index)?;
    Some(line.number)
}

/// The number of the line whose turn met a full queue; none where no turn of the script did.
fn full_line(book: &[Vec<StepLine>], part: &Part) -> Option<u64>
    ensures { result ≡ full_line_of (book_seen book.now) part.now }
{
    match part.fault {
        Some(StepFault::QueueFull(_)) => number_of(book, part.actor, part.replies.len()),
        _ => None,
    }
}

/// The lesser of two numbers, where there are any.
fn lesser(one: Option<u64>, other: Option<u64>) -> Option<u64>
    ensures { result ≡ lesser_of one other }
{
    match (one, other) {
        (Some(n), Some(m)) => Some(n.min(m)),
        (Some(n), None) => Some(n),
        (None, other) => other,
    }
}

/// The lowest line whose turn met a full queue.
pub fn lowest_full(book: &[Vec<StepLine>], parts: &[Part]) -> Option<u64>
    ensures { result ≡ lowest_of (book_seen book.now) parts.now }
{
    match parts {
        [] => None,
        [part, more @ ..] => lesser(full_line(book, part), lowest_full(book, more)),
    }
}

/// A turn was refused when out of memory.
pub fn lacks_memory(parts: &[Part]) -> bool
    ensures { result ≡ lacks_memory_in parts.now }
{
    match parts {
        [] => false,
        [part, more @ ..] => { matches!(part.fault, Some(StepFault::Memory)) || lacks_memory(more) }
    }
}
