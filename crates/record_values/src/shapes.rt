//! The values that clients write, read by the shapes of their texts.

ghost use Rattle.std.specs.Prelude.{◌≡◌, IfOk, codes, option_copied};
ghost use Rattle.text_words.specs.Words.{behind};
ghost use Rattle.record_values.specs.Shapes.{is_bits as is_bit_string, is_int as is_integer};
ghost use Rattle.record_values.specs.Shapes.{bits_of, integer_of, number_of, text_of, marked_at};
ghost use Rattle.record_values.specs.Shapes.{shape_at};

use bay_model::Comp;
use std::alloc::{AllocError, Global};
use sv_base::{Bits, Octs, TypeOf, Value};
use text_words::{all_binary, all_graphic, hex_octets, truth, truth_values};

/// The component is a bit string.
fn is_bits(comp: Comp) -> bool
    ensures { result ≡ is_bit_string comp }
{
    matches!(comp.kind(), TypeOf::Bits(_))
}

/// The component is a signed number.
fn is_int(comp: Comp) -> bool
    ensures { result ≡ is_integer comp }
{
    matches!(comp.kind(), TypeOf::Int(_))
}

/// Digits 0 and 1, the first bit first.
fn bits(alloc: Global, word: &[u8]) -> Result<Option<Value>, AllocError>
    ensures { IfOk result (λ r. r ≡ bits_of word.now) }
{
    if all_binary(word) {
        return Ok(Some(Value::Bits(Bits::from_vec(truth_values(alloc, word)?))));
    }
    Ok(None)
}

/// What stands after a `-`.
fn after_minus(word: &[u8]) -> Option<&[u8]>
    ensures { option_copied result ≡ behind (codes "-") word.now }
{
    word.strip_prefix(b"-".as_slice())
}

/// A signed number, with or without `-`.
#[tactic(auto, unfolding(text_words::specs::Values::value_at))]
fn integer(alloc: Global, word: &[u8]) -> Result<Option<Value>, AllocError>
    ensures { IfOk result (λ r. r ≡ integer_of word.now) }
{
    text_words::value(alloc, &TypeOf::Int(64), word)
}

/// The number of a component: a signed one where its type is, else one without a sign, or a signed one where it has `-`.
fn number(alloc: Global, comp: Comp, word: &[u8]) -> Result<Option<Value>, AllocError>
    ensures { IfOk result (λ r. r ≡ number_of comp word.now) }
{
    if is_int(comp) {
        return integer(alloc, word);
    }
    match after_minus(word) {
        Some(_) => integer(alloc, word),
        None => Ok(text_words::number(word).map(Value::Uint)),
    }
}

/// Visible octets.
fn text(alloc: Global, octets: &[u8]) -> Result<Option<Value>, AllocError>
    ensures { IfOk result (λ r. r ≡ text_of octets.now) }
{
    if all_graphic(octets) {
        return Ok(Some(Value::Text(Octs::copied(alloc, octets)?)));
    }
    Ok(None)
}

/// No truth value: `'` and a text, `x` and octets in hexadecimal, or digits.
#[tactic(auto, unfolding(crate::specs::Shapes::marked_at))]
fn marked(alloc: Global, comp: Comp, word: &[u8]) -> Result<Option<Value>, AllocError>
    ensures { IfOk result (λ r. r ≡ marked_at comp word.now) }
{
    match word {
        [] => Ok(None),
        [b'\'', octets @ ..] => text(alloc, octets),
        [b'x', digits @ ..] => match hex_octets(alloc, digits)? {
            Some(octets) => Ok(Some(Value::Octets(Octs::from_vec(octets)))),
            None => Ok(None),
        },
        _ => {
            if is_bits(comp) {
                bits(alloc, word)
            } else {
                number(alloc, comp, word)
            }
        }
    }
}

/// The value that a text has for a component: `T` or `F`, `'` and a text, `x` and octets in lower-case hexadecimal; else the
/// bits of a component that is a bit string, a signed number of one that is, and the number of any other one.
#[tactic(auto, unfolding(crate::specs::Shapes::shape_at))]
pub fn shape(alloc: Global, comp: Comp, word: &[u8]) -> Result<Option<Value>, AllocError>
    ensures { IfOk result (λ r. r ≡ shape_at comp word.now) }
{
    match truth(word) {
        Some(b) => Ok(Some(Value::Bool(b))),
        None => marked(alloc, comp, word),
    }
}
