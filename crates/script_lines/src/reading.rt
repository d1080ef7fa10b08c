//! A line among scripts is read.

ghost use Rattle.std.specs.Prelude.{◌≡◌};
ghost use Rattle.script_lines.specs.Lines.{is_heading_text, numbered, mark_at, script_line_at};
ghost use Rattle.script_lines.specs.Seen.{script_seen};

use crate::line::ScriptView;
use crate::party::Party;
use run_record::{Kind, view_line};
use sv_base::AssocNo;
use text_words::{after_front, all_graphic, number_between};

/// Whether the line is `rehearse 1`, with which a rehearsal's input begins.
pub fn is_heading(line: &[u8]) -> bool
    ensures { result ≡ is_heading_text line.now }
{
    line == b"rehearse 1".as_slice()
}

/// The script of the association whose number the word is.
fn association_script(word: &[u8]) -> Result<ScriptView<'_>, Kind>
    ensures { script_seen result ≡ numbered word.now }
{
    match number_between(word, 1, 16) {
        Some(a) => Ok(ScriptView::Begins(Party::Association(AssocNo(a)))),
        None if !word.is_empty() && all_graphic(word) => Err(Kind::Number),
        None => Err(Kind::Word),
    }
}

/// The line with which a script begins or ends.
#[tactic(auto, unfolding(crate::specs::Lines::mark_at))]
fn mark(line: &[u8]) -> Result<ScriptView<'_>, Kind>
    ensures { script_seen result ≡ mark_at line.now }
{
    if line == b"script process".as_slice() {
        return Ok(ScriptView::Begins(Party::Process));
    }
    if line == b"close".as_slice() {
        return Ok(ScriptView::Closes);
    }
    match after_front(line, b"script association ") {
        Some(word) => association_script(word),
        None => Err(Kind::Word),
    }
}

/// What a line among scripts says, without its newline, its words lent. It takes no memory.
///
/// Fails as `view_line` does; and with Number for a script of an association that isn't 1 to 16.
#[tactic(auto, unfolding(crate::specs::Lines::script_line_at))]
pub fn view_script_line(line: &[u8]) -> Result<ScriptView<'_>, Kind>
    ensures { script_seen result ≡ script_line_at line.now }
{
    match view_line(line) {
        Ok(view) => Ok(ScriptView::Step(view)),
        Err(Kind::Word) => mark(line),
        Err(kind) => Err(kind),
    }
}
