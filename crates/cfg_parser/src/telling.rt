//! What the next line says.

ghost use Rattle.std.specs.Prelude.{◌≡◌, ◌<◌, Ok, length, IfOk};
ghost use Rattle.text_words.specs.Words.{texts};
ghost use Rattle.cfg_parser.specs.Reader.{Gives};
ghost use Rattle.cfg_lines.specs.declared.line.Line.TheVariants.{Server};
ghost use Rattle.cfg_parser.specs.Judging.{content_at, keyed_at, known_at, tell_at, skip_at};
ghost use Rattle.cfg_parser.specs.Judging.{line_at};

use crate::contents::{
    BlockWords, MOST_OCTETS, attribute_line, block_line, config_line, control_line, domain_line,
    groups_line, member_line, node_line, set_line,
};
use crate::fault::{Kind, LineFault};
use crate::judging::{counts, has_empty, has_long, has_many, is_full, may_stand};
use crate::keyword::{Keyword, keyword_of};
use cfg_lines::Line;
use cfg_reading::Reading;
use smallvec::SmallVec;
use std::alloc::Global;
use sv_base::Octs;
use text_words::{are_printable, is_skipped, put_parts};

/// `server` and its words.
fn server_line(
    alloc: Global,
    vendor: &[u8],
    model: &[u8],
    revision: &[u8],
) -> Result<Line, LineFault>
    ensures { Gives result (Ok (Server vendor.now model.now revision.now)) }
{
    Ok(Line::Server {
        vendor: Octs::copied(alloc, vendor)?,
        model: Octs::copied(alloc, model)?,
        revision: Octs::copied(alloc, revision)?,
    })
}

/// What the words after the first say.
#[tactic(auto, unfolding(crate::specs::Judging::content_at))]
fn content(
    alloc: Global,
    before: &Reading,
    room: &mut Vec<u8>,
    keyword: Keyword,
    words: &[&[u8]],
) -> Result<Line, LineFault>
    ensures { Gives result (content_at before.now keyword (texts words.now)) }
{
    match (keyword, words) {
        (Keyword::Config, [version]) => config_line(version),
        (Keyword::Server, [vendor, model, revision]) => {
            server_line(alloc, vendor, model, revision)
        }
        (Keyword::Ld, [name]) => domain_line(alloc, before, name),
        (Keyword::Ln, [name]) => node_line(alloc, before, name),
        (Keyword::Attr, [fc, path, kind, flags, values @ ..]) => {
            attribute_line(alloc, before, room, fc, path, kind, flags, values)
        }
        (Keyword::Set, [name]) => set_line(alloc, before, name),
        (Keyword::Member, [reference]) => member_line(alloc, reference),
        (
            Keyword::Brcb,
            [
                name,
                rpt_id,
                dat_set,
                conf_rev,
                opt_flds,
                buf_tm,
                trg_ops,
                intg_pd,
                capacity,
            ],
        ) => block_line(
            alloc,
            before,
            BlockWords {
                name,
                rpt_id,
                dat_set,
                conf_rev,
                opt_flds,
                buf_tm,
                trg_ops,
                intg_pd,
                capacity,
            },
        ),
        (Keyword::Ctl, [path, model, timeout, class, kind]) => {
            control_line(alloc, before, path, model, timeout, class, kind)
        }
        (Keyword::Sgcb, [count, active]) => groups_line(alloc, before, count, active),
        (Keyword::End, []) => Ok(Line::End),
        _ => Err(LineFault::Refused(Kind::Word)),
    }
}

/// A line whose first word is known: its count of words, its place, limits, and then its words.
#[tactic(auto, unfolding(crate::specs::Judging::keyed_at))]
fn keyed(
    alloc: Global,
    before: &Reading,
    room: &mut Vec<u8>,
    keyword: Keyword,
    words: &[&[u8]],
) -> Result<Line, LineFault>
    ensures told { Gives result (keyed_at before.now keyword (texts words.now)) }
    ensures room { IfOk result (λ _. length before.now < 20000) }
{
    if !counts(before, keyword, words) {
        return Err(LineFault::Refused(Kind::Word));
    }
    if !may_stand(before, keyword, words) {
        return Err(LineFault::Refused(Kind::Order));
    }
    if is_full(before) || has_many(before, keyword, words) {
        return Err(LineFault::Refused(Kind::Many));
    }
    content(alloc, before, room, keyword, words)
}

/// A line of words.
#[tactic(auto, unfolding(crate::specs::Judging::tell_at))]
fn tell(
    alloc: Global,
    before: &Reading,
    room: &mut Vec<u8>,
    text: &[u8],
    words: &[&[u8]],
) -> Result<Line, LineFault>
    ensures told { Gives result (tell_at before.now text.now (texts words.now)) }
    ensures room { IfOk result (λ _. length before.now < 20000) }
{
    let [word, words @ ..] = words else {
        return Err(LineFault::Refused(Kind::Word));
    };
    let keyword = keyword_of(word);
    if has_long(before, keyword, words) {
        return Err(LineFault::Refused(Kind::Long));
    }
    if !are_printable(text) || has_empty(words) {
        return Err(LineFault::Refused(Kind::Word));
    }
    match keyword {
        Some(keyword) => keyed(alloc, before, room, keyword, words),
        None => Err(LineFault::Refused(Kind::Word)),
    }
}

/// A line that says nothing.
#[tactic(auto, unfolding(crate::specs::Judging::skip_at))]
fn skip(before: &Reading, text: &[u8]) -> Result<Line, LineFault>
    ensures told { Gives result (skip_at before.now text.now) }
    ensures room { IfOk result (λ _. length before.now < 20000) }
{
    if !are_printable(text) {
        return Err(LineFault::Refused(Kind::Word));
    }
    if is_full(before) {
        return Err(LineFault::Refused(Kind::Many));
    }
    Ok(Line::Skip)
}

/// What the next line says, whose words are put in a buffer.
#[tactic(auto, unfolding(crate::specs::Judging::line_at))]
pub fn line<'a>(
    alloc: Global,
    before: &Reading,
    room: &mut Vec<u8>,
    words: &mut SmallVec<&'a [u8], 10>,
    text: &'a [u8],
) -> Result<Line, LineFault>
    ensures told { Gives result (line_at before.now text.now) }
    ensures room { IfOk result (λ _. length before.now < 20000) }
{
    if text.len() > usize::from(MOST_OCTETS) {
        return Err(LineFault::Refused(Kind::Long));
    }
    if is_skipped(text) {
        return skip(before, text);
    }
    put_parts(words, text, b' ')?;
    tell(alloc, before, room, text, words)
}
