//! A line is written: its words, and a space between each two.

ghost use Rattle.std.specs.Prelude.{◌≡◌, ◌++◌, ◌∷◌, [], codes, length, take, OnOk, OnErr};
ghost use Rattle.std.specs.Fmt.{decimal};
ghost use Rattle.std.specs.List.{flat_map, join_with_byte};
ghost use Rattle.text_words.specs.Spelled.{spaced, truth_word};
ghost use Rattle.run_record.specs.Spelled.{form_words, pair_words, spelled, line_text};

use crate::line::{OpenForm, RecLine};
use crate::pairs::Pair;
use std::alloc::AllocError;
use sv_base::{AssocNo, Moment};
use text_words::{push_number, push_word};

/// Adds a first word and the number of an association.
fn push_association(out: &mut Vec<u8>, keyword: &[u8], a: AssocNo) -> Result<(), AllocError>
    ensures ok { OnOk result (out.new.items ≡ out.old.items
        ++ (keyword.now ++ spaced (decimal a.0))) }
    ensures err { OnErr result (take (length out.old.items) out.new.items ≡ out.old.items) }
{
    out.extend_from_slice(keyword)?;
    push_number(out, u64::from(a.0))
}

/// Adds the words of a form, each after a space.
fn push_form(out: &mut Vec<u8>, form: OpenForm) -> Result<(), AllocError>
    ensures ok { OnOk result (out.new.items ≡ out.old.items ++ flat_map spaced (form_words form)) }
    ensures err { OnErr result (take (length out.old.items) out.new.items ≡ out.old.items) }
{
    match form {
        OpenForm::Direct => push_word(out, b"direct"),
        OpenForm::Mms(size) => {
            push_word(out, b"mms")?;
            push_number(out, u64::from(size))
        }
        OpenForm::Wire => push_word(out, b"wire"),
    }
}

/// Adds the words of a pair, each after a space.
fn push_pair(out: &mut Vec<u8>, pair: &Pair) -> Result<(), AllocError>
    ensures ok { OnOk result (out.new.items ≡ out.old.items ++ flat_map spaced
        (pair_words pair.now)) }
    ensures err { OnErr result (take (length out.old.items) out.new.items ≡ out.old.items) }
{
    push_word(out, pair.name.as_slice())?;
    push_word(out, pair.value.as_slice())
}

fn push_pairs(out: &mut Vec<u8>, pairs: &[Pair]) -> Result<(), AllocError>
    ensures ok { OnOk result (out.new.items ≡ out.old.items ++ flat_map spaced
        (flat_map pair_words pairs.now)) }
    ensures err { OnErr result (take (length out.old.items) out.new.items ≡ out.old.items) }
{
    for pair in pairs {
        push_pair(out, pair)?;
    }
    Ok(())
}

/// Adds `T` or `F` after a space.
fn push_truth(out: &mut Vec<u8>, truth: bool) -> Result<(), AllocError>
    ensures ok { OnOk result (out.new.items ≡ out.old.items ++ spaced (truth_word truth)) }
    ensures err { OnErr result (take (length out.old.items) out.new.items ≡ out.old.items) }
{
    push_word(out, if truth { b"T" } else { b"F" })
}

/// Adds `at` and its moment.
#[tactic(auto, using(crate::proofs::WordLaws::joined))]
fn push_moment(out: &mut Vec<u8>, moment: Moment) -> Result<(), AllocError>
    ensures ok { OnOk result (out.new.items ≡ out.old.items ++ join_with_byte 32
        (codes "at" ∷ decimal moment ∷ [])) }
    ensures err { OnErr result (take (length out.old.items) out.new.items ≡ out.old.items) }
{
    out.extend_from_slice(b"at")?;
    push_number(out, moment.ms())
}

/// Adds `open`, the association and its form.
#[tactic(auto, using(crate::proofs::WordLaws::joined))]
fn push_open(out: &mut Vec<u8>, a: AssocNo, form: OpenForm) -> Result<(), AllocError>
    ensures ok { OnOk result (out.new.items ≡ out.old.items ++ join_with_byte 32
        (codes "open" ∷ decimal a.0 ∷ form_words form)) }
    ensures err { OnErr result (take (length out.old.items) out.new.items ≡ out.old.items) }
{
    push_association(out, b"open", a)?;
    push_form(out, form)
}

/// Adds three words, each after a space.
fn push_three(
    out: &mut Vec<u8>,
    first: &[u8],
    second: &[u8],
    third: &[u8],
) -> Result<(), AllocError>
    ensures ok { OnOk result (out.new.items ≡ out.old.items
        ++ (spaced first.now ++ spaced second.now ++ spaced third.now)) }
    ensures err { OnErr result (take (length out.old.items) out.new.items ≡ out.old.items) }
{
    push_word(out, first)?;
    push_word(out, second)?;
    push_word(out, third)
}

/// Adds `write`, the association and what it writes.
fn push_write(
    out: &mut Vec<u8>,
    a: AssocNo,
    block: &[u8],
    comp: &[u8],
    value: &[u8],
) -> Result<(), AllocError>
    ensures ok { OnOk result (out.new.items ≡ out.old.items ++
        (codes "write" ++ spaced (decimal a.0) ++ spaced block.now ++ spaced comp.now
        ++ spaced value.now)) }
    ensures err { OnErr result (take (length out.old.items) out.new.items ≡ out.old.items) }
{
    push_association(out, b"write", a)?;
    push_three(out, block, comp, value)
}

/// Adds a first word, the number of an association and the octets that came on it.
#[tactic(auto, using(crate::proofs::WordLaws::joined))]
fn push_octets(out: &mut Vec<u8>, keyword: &[u8], a: AssocNo, hex: &[u8]) -> Result<(), AllocError>
    ensures ok { OnOk result (out.new.items ≡ out.old.items ++ join_with_byte 32
        (keyword.now ∷ decimal a.0 ∷ hex.now ∷ [])) }
    ensures err { OnErr result (take (length out.old.items) out.new.items ≡ out.old.items) }
{
    push_association(out, keyword, a)?;
    push_word(out, hex)
}

/// Adds `set` and its pairs.
#[tactic(auto, using(crate::proofs::WordLaws::pushed))]
fn push_set(out: &mut Vec<u8>, pairs: &[Pair]) -> Result<(), AllocError>
    ensures ok { OnOk result (out.new.items ≡ out.old.items ++ join_with_byte 32
        (codes "set" ∷ flat_map pair_words pairs.now)) }
    ensures err { OnErr result (take (length out.old.items) out.new.items ≡ out.old.items) }
{
    out.extend_from_slice(b"set")?;
    push_pairs(out, pairs)
}

/// Adds a first word, a control, and `T` or `F`.
fn push_control(
    out: &mut Vec<u8>,
    keyword: &[u8],
    control: &[u8],
    truth: bool,
) -> Result<(), AllocError>
    ensures ok { OnOk result (out.new.items ≡ out.old.items ++ (keyword.now ++ spaced control.now
        ++ spaced (truth_word truth))) }
    ensures err { OnErr result (take (length out.old.items) out.new.items ≡ out.old.items) }
{
    out.extend_from_slice(keyword)?;
    push_word(out, control)?;
    push_truth(out, truth)
}

/// Adds the words of a line, and a space between each two.
#[tactic(auto, using(crate::proofs::WordLaws::joined), unfolding(crate::specs::Spelled::words))]
fn push_words(out: &mut Vec<u8>, line: &RecLine) -> Result<(), AllocError>
    ensures ok { OnOk result (out.new.items ≡ out.old.items ++ spelled line.now) }
    ensures err { OnErr result (take (length out.old.items) out.new.items ≡ out.old.items) }
{
    match line {
        RecLine::Skip => Ok(()),
        RecLine::At(moment) => push_moment(out, *moment),
        RecLine::Open { a, form } => push_open(out, *a, *form),
        RecLine::Write {
            a,
            block,
            comp,
            value,
        } => push_write(out, *a, block.as_slice(), comp.as_slice(), value.as_slice()),
        RecLine::Pdu(a, hex) => push_octets(out, b"pdu", *a, hex.as_slice()),
        RecLine::Piece(a, hex) => push_octets(out, b"in", *a, hex.as_slice()),
        RecLine::Take(a) => push_association(out, b"take", *a),
        RecLine::Lost(a) => push_association(out, b"lost", *a),
        RecLine::Set(pairs) => push_set(out, pairs.as_slice()),
        RecLine::Done(control, well) => push_control(out, b"done", control.as_slice(), *well),
        RecLine::Block(control, on) => push_control(out, b"block", control.as_slice(), *on),
        RecLine::Tick => out.extend_from_slice(b"tick"),
        RecLine::End => out.extend_from_slice(b"end"),
    }
}

/// Adds the words of a line, and its newline.
fn push_line(out: &mut Vec<u8>, line: &RecLine) -> Result<(), AllocError>
    ensures ok { OnOk result (out.new.items ≡ out.old.items ++ line_text line.now) }
    ensures err { OnErr result (take (length out.old.items) out.new.items ≡ out.old.items) }
{
    push_words(out, line)?;
    out.push(b'\n')?;
    Ok(())
}

/// Adds the text of a line and its newline. A line that says nothing is written as an empty one.
///
/// Of a line that a text spells the written text reads as that line, and none that spells it is shorter. Fails out of
/// memory alone, and then `out` stays as it was.
pub fn write_line(line: &RecLine, out: &mut Vec<u8>) -> Result<(), AllocError>
    ensures ok { OnOk result (out.new.items ≡ out.old.items ++ line_text line.now) }
    ensures err { OnErr result (out.new.items ≡ out.old.items) }
{
    let before = out.len();
    let done = push_line(out, line);
    if done.is_err() {
        out.truncate(before);
    }
    done
}
