//! The lines of all scripts, by the numbers of their actors.

ghost use Rattle.std.specs.Prelude.{◌≡◌, Some};
ghost use Rattle.std.specs.Option.{option_map};
ghost use Rattle.race_records.specs.Merged.{line_of as line_there, book_seen, HasLine};

use actor_scripts::Made;
use script_plans::StepLine;

/// The line of a step that was made; none where no script has it.
pub fn line_of<'a>(book: &'a [Vec<StepLine>], made: &Made) -> Option<&'a StepLine>
    ensures { option_map (λ l. l.now) result ≡ line_there (book_seen book.now) made.now }
{
    let lines = book.get(made.actor as usize)?;
    lines.get(made.index as usize)
}

/// The line of a step that was made, which a script has.
pub fn line_made<'a>(book: &'a [Vec<StepLine>], made: &Made) -> &'a StepLine
    requires { HasLine (book_seen book.now) made.now }
    ensures { Some result.now ≡ line_there (book_seen book.now) made.now }
{
    match line_of(book, made) {
        Some(line) => line,
        None => unreachable!(),
    }
}
