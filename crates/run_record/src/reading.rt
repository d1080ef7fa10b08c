//! A line is read: its octets first, then its words, and then its numbers.

ghost use Rattle.std.specs.Prelude.{◌≡◌, ◌==◌, ◌∷◌, [], false, length};
ghost use Rattle.std.specs.List.{list_any};
ghost use Rattle.text_words.specs.Words.{words_of};
ghost use Rattle.text_words.specs.Numbers.{number_within};
ghost use Rattle.text_words.specs.Values.{truth_at};
ghost use Rattle.run_record.specs.declared.keyword.Keyword.TheVariants.{Open, Tick, End};
ghost use Rattle.run_record.specs.declared.line.RecLine.TheVariants.{At, Write, Pdu, Piece, Take};
ghost use Rattle.run_record.specs.declared.line.RecLine.TheVariants.{Lost, Done, Block};
ghost use Rattle.run_record.specs.Contents.{assoc_at, numbered, form_at, set_at as set_line_at};
ghost use Rattle.run_record.specs.Contents.{truth_line, content_at};
ghost use Rattle.run_record.specs.Judging.{Gives, tell_at, is_long as is_long_text, line_at};
ghost use Rattle.run_record.specs.Octets.{is_clear as is_clear_text};
ghost use Rattle.run_record.specs.Seen.{words_left, one_of, two_of, four_of, just, seen};
ghost use Rattle.run_record.specs.Answers.{Answers};

use crate::fault::{Kind, RecFault};
use crate::keyword::{Keyword, keyword_of};
use crate::line::{OpenForm, RecLine};
use crate::octets::{MOST_OCTETS, is_clear};
use crate::view::{LineView, PairsView};
use crate::words::Words;
use std::alloc::Global;
use sv_base::{AssocNo, Moment};
use text_words::{are_printable, is_skipped, number, number_between, truth};

/// The association whose number the word is.
fn association(word: &[u8]) -> Option<AssocNo>
    ensures { result ≡ assoc_at word.now }
{
    match number_between(word, 1, 16) {
        Some(n) => Some(AssocNo(n)),
        None => None,
    }
}

/// The moment whose milliseconds since 1970 the word is.
fn moment(word: &[u8]) -> Option<Moment>
    ensures { result ≡ number_within 441763200000 4294967295999 word.now }
{
    match number(word) {
        Some(ms) => Moment::new(ms),
        None => None,
    }
}

fn at_line(words: Words<'_>) -> Result<LineView<'_>, Kind>
    ensures { seen result ≡ just (one_of (words_left words.entry))
        (λ word. numbered (number_within 441763200000 4294967295999 word) At) }
{
    let Some(word) = words.one() else {
        return Err(Kind::Word);
    };
    match moment(word) {
        Some(moment) => Ok(LineView::At(moment)),
        None => Err(Kind::Number),
    }
}

/// A form of one word.
fn named_form(word: &[u8]) -> Result<OpenForm, Kind>
    ensures { result ≡ form_at (word.now ∷ []) }
{
    if word == b"direct".as_slice() {
        Ok(OpenForm::Direct)
    } else if word == b"wire".as_slice() {
        Ok(OpenForm::Wire)
    } else {
        Err(Kind::Word)
    }
}

/// `mms` and its size.
fn sized_form(word: &[u8], size: &[u8]) -> Result<OpenForm, Kind>
    ensures { result ≡ form_at (word.now ∷ size.now ∷ []) }
{
    if word != b"mms".as_slice() {
        return Err(Kind::Word);
    }
    match number_between(size, 1024, 65000) {
        Some(size) => Ok(OpenForm::Mms(size)),
        None => Err(Kind::Number),
    }
}

/// The form in which an association is opened.
fn form(words: Words<'_>) -> Result<OpenForm, Kind>
    ensures { result ≡ form_at (words_left words.entry) }
{
    let mut rest = words;
    let Some(word) = rest.next() else {
        return Err(Kind::Word);
    };
    if rest.is_empty() {
        return named_form(word);
    }
    match rest.one() {
        Some(size) => sized_form(word, size),
        None => Err(Kind::Word),
    }
}

#[tactic(auto, unfolding(crate::specs::Contents::content_at))]
fn open_line(words: Words<'_>) -> Result<LineView<'_>, Kind>
    ensures { seen result ≡ content_at Open (words_left words.entry) }
{
    let mut rest = words;
    let Some(a) = rest.next() else {
        return Err(Kind::Word);
    };
    match form(rest) {
        Ok(form) => match association(a) {
            Some(a) => Ok(LineView::Open { a, form }),
            None => Err(Kind::Number),
        },
        Err(kind) => Err(kind),
    }
}

fn component_line(words: Words<'_>) -> Result<LineView<'_>, Kind>
    ensures { seen result ≡ just (four_of (words_left words.entry)) (λ ws. numbered (assoc_at ws.0)
        (λ n. Write n ws.1 ws.2 ws.3)) }
{
    let Some((a, block, comp, value)) = words.four() else {
        return Err(Kind::Word);
    };
    match association(a) {
        Some(a) => Ok(LineView::Write {
            a,
            block,
            comp,
            value,
        }),
        None => Err(Kind::Number),
    }
}

fn pdu_line(words: Words<'_>) -> Result<LineView<'_>, Kind>
    ensures { seen result ≡ just (two_of (words_left words.entry)) (λ ws. numbered (assoc_at ws.0)
        (λ n. Pdu n ws.1)) }
{
    let Some((a, hex)) = words.two() else {
        return Err(Kind::Word);
    };
    match association(a) {
        Some(a) => Ok(LineView::Pdu(a, hex)),
        None => Err(Kind::Number),
    }
}

fn piece_line(words: Words<'_>) -> Result<LineView<'_>, Kind>
    ensures { seen result ≡ just (two_of (words_left words.entry)) (λ ws. numbered (assoc_at ws.0)
        (λ n. Piece n ws.1)) }
{
    let Some((a, hex)) = words.two() else {
        return Err(Kind::Word);
    };
    match association(a) {
        Some(a) => Ok(LineView::Piece(a, hex)),
        None => Err(Kind::Number),
    }
}

fn take_line(words: Words<'_>) -> Result<LineView<'_>, Kind>
    ensures { seen result ≡ just (one_of (words_left words.entry))
        (λ word. numbered (assoc_at word) Take) }
{
    let Some(a) = words.one() else {
        return Err(Kind::Word);
    };
    match association(a) {
        Some(a) => Ok(LineView::Take(a)),
        None => Err(Kind::Number),
    }
}

fn lost_line(words: Words<'_>) -> Result<LineView<'_>, Kind>
    ensures { seen result ≡ just (one_of (words_left words.entry))
        (λ word. numbered (assoc_at word) Lost) }
{
    let Some(a) = words.one() else {
        return Err(Kind::Word);
    };
    match association(a) {
        Some(a) => Ok(LineView::Lost(a)),
        None => Err(Kind::Number),
    }
}

fn set_line(words: Words<'_>) -> Result<LineView<'_>, Kind>
    ensures { seen result ≡ set_line_at (words_left words.entry) }
{
    if words.are_pairs() {
        Ok(LineView::Set(PairsView::of(words)))
    } else {
        Err(Kind::Word)
    }
}

fn done_line(words: Words<'_>) -> Result<LineView<'_>, Kind>
    ensures { seen result ≡ just (two_of (words_left words.entry))
        (λ ws. truth_line (truth_at ws.1) (Done ws.0)) }
{
    let Some((control, well)) = words.two() else {
        return Err(Kind::Word);
    };
    match truth(well) {
        Some(well) => Ok(LineView::Done(control, well)),
        None => Err(Kind::Word),
    }
}

fn block_line(words: Words<'_>) -> Result<LineView<'_>, Kind>
    ensures { seen result ≡ just (two_of (words_left words.entry))
        (λ ws. truth_line (truth_at ws.1) (Block ws.0)) }
{
    let Some((control, on)) = words.two() else {
        return Err(Kind::Word);
    };
    match truth(on) {
        Some(on) => Ok(LineView::Block(control, on)),
        None => Err(Kind::Word),
    }
}

#[tactic(auto, unfolding(crate::specs::Contents::content_at))]
fn tick_line(words: Words<'_>) -> Result<LineView<'_>, Kind>
    ensures { seen result ≡ content_at Tick (words_left words.entry) }
{
    if words.is_empty() {
        Ok(LineView::Tick)
    } else {
        Err(Kind::Word)
    }
}

#[tactic(auto, unfolding(crate::specs::Contents::content_at))]
fn end_line(words: Words<'_>) -> Result<LineView<'_>, Kind>
    ensures { seen result ≡ content_at End (words_left words.entry) }
{
    if words.is_empty() {
        Ok(LineView::End)
    } else {
        Err(Kind::Word)
    }
}

/// What the words after the first say.
#[tactic(auto, using(crate::proofs::SeenLaws::at_content, crate::proofs::SeenLaws::write_content, crate::proofs::SeenLaws::pdu_content, crate::proofs::SeenLaws::piece_content, crate::proofs::SeenLaws::take_content, crate::proofs::SeenLaws::lost_content, crate::proofs::SeenLaws::set_content, crate::proofs::SeenLaws::done_content, crate::proofs::SeenLaws::block_content))]
fn content<'a>(keyword: Keyword, words: Words<'a>) -> Result<LineView<'a>, Kind>
    ensures { seen result ≡ content_at keyword (words_left words.entry) }
{
    match keyword {
        Keyword::At => at_line(words),
        Keyword::Open => open_line(words),
        Keyword::Write => component_line(words),
        Keyword::Pdu => pdu_line(words),
        Keyword::Piece => piece_line(words),
        Keyword::Take => take_line(words),
        Keyword::Lost => lost_line(words),
        Keyword::Set => set_line(words),
        Keyword::Done => done_line(words),
        Keyword::Block => block_line(words),
        Keyword::Tick => tick_line(words),
        Keyword::End => end_line(words),
    }
}

/// What words say of which none is empty.
#[tactic(auto, unfolding(crate::specs::Judging::tell_at))]
fn tell(line: &[u8]) -> Result<LineView<'_>, Kind>
    requires { list_any (λ w. length w == 0) (words_of line.now) ≡ false }
    ensures { seen result ≡ tell_at (words_of line.now) }
{
    let mut words = Words::of(line);
    let Some(word) = words.next() else {
        return Err(Kind::Word);
    };
    match keyword_of(word) {
        Some(keyword) => content(keyword, words),
        None => Err(Kind::Word),
    }
}

/// The line is longer than any, so than 140,100 octets, or has an octet that none has: any but 20 to 7E.
pub fn is_long(line: &[u8]) -> bool
    ensures { result ≡ is_long_text line.now }
{
    line.len() > MOST_OCTETS || !are_printable(line)
}

/// What a line says that is too long, has an octet that no line has, or has an empty word.
#[tactic(auto, unfolding(crate::specs::Judging::line_at))]
fn unclear(line: &[u8]) -> Result<LineView<'_>, Kind>
    requires { is_clear_text line.now ≡ false }
    ensures { seen result ≡ line_at line.now }
{
    if is_long(line) {
        Err(Kind::Long)
    } else if is_skipped(line) {
        Ok(LineView::Skip)
    } else {
        Err(Kind::Word)
    }
}

/// What a line of a record says, without its newline, its words lent. It takes no memory.
///
/// Fails as `read_line` does.
#[tactic(auto, unfolding(crate::specs::Judging::line_at))]
pub fn view_line(line: &[u8]) -> Result<LineView<'_>, Kind>
    ensures told { seen result ≡ line_at line.now }
{
    if !is_clear(line) {
        return unclear(line);
    }
    if is_skipped(line) {
        return Ok(LineView::Skip);
    }
    tell(line)
}

/// What a line says, with words of its own.
fn judge(alloc: Global, line: &[u8]) -> Result<RecLine, RecFault>
    ensures { Gives result (line_at line.now) }
{
    match view_line(line) {
        Ok(view) => view.to_line(alloc).map_err(|_| RecFault::Memory),
        Err(kind) => Err(RecFault::Refused(kind)),
    }
}

/// What a line of a record says, without its newline. The line `record` and those of the configuration are no such lines.
///
/// Fails with the first of these: Long for more than 140100 octets, or an octet outside 20 to 7E; Word for another first
/// word or count of words, an empty word, or a word that is no form of an association, or neither `T` nor `F`; Number for an
/// association that isn't 1 to 16, a moment out of its range, a size that isn't 1024 to 65000, or another spelling than
/// decimal without leading zeros. `Memory` is out of memory.
pub fn read_line(alloc: Global, line: &[u8]) -> Result<RecLine, RecFault>
    ensures told { Gives result (line_at line.now) }
    ensures format { Answers line.now result }
{
    judge(alloc, line)
}
