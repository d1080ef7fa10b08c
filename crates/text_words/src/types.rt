//! The types and the trigger options that words name.

ghost use Rattle.std.specs.Prelude.{◌≡◌};
ghost use Rattle.text_words.specs.Types.{sized_type_at, type_at, flags_at};

use crate::numbers::number_between;
use crate::words::after_front;
use sv_base::TypeOf;

/// Trigger options (IEC 61850-7-2, TriggerConditions).
#[derive(Clone, Copy, Debug, PartialEq, Eq)]
pub struct Flags {
    pub dchg: bool,
    pub qchg: bool,
    pub dupd: bool,
}

/// A type with a size in it.
#[tactic(auto, unfolding(crate::specs::Types::sized_type_at))]
fn sized_type(word: &[u8]) -> Option<TypeOf>
    ensures { result ≡ sized_type_at word.now }
{
    if let Some(digits) = after_front(word, b"bits") {
        let n = number_between(digits, 1, 64)?;
        return Some(TypeOf::Bits(n as u16));
    }
    if let Some(digits) = after_front(word, b"text") {
        let n = number_between(digits, 1, 255)?;
        return Some(TypeOf::Text(n as u16));
    }
    if let Some(digits) = after_front(word, b"octets") {
        let n = number_between(digits, 1, 255)?;
        return Some(TypeOf::Octets(n as u16));
    }
    None
}

/// The type that a word names.
#[tactic(auto, unfolding(crate::specs::Types::type_at))]
pub fn type_of(word: &[u8]) -> Option<TypeOf>
    ensures { result ≡ type_at word.now }
{
    let kind = if word == b"bool".as_slice() {
        TypeOf::Bool
    } else if word == b"int8".as_slice() {
        TypeOf::Int(8)
    } else if word == b"int16".as_slice() {
        TypeOf::Int(16)
    } else if word == b"int32".as_slice() {
        TypeOf::Int(32)
    } else if word == b"int64".as_slice() {
        TypeOf::Int(64)
    } else if word == b"uint8".as_slice() {
        TypeOf::Uint(8)
    } else if word == b"uint16".as_slice() {
        TypeOf::Uint(16)
    } else if word == b"uint32".as_slice() {
        TypeOf::Uint(32)
    } else if word == b"dbpos".as_slice() {
        TypeOf::Bits(2)
    } else if word == b"quality".as_slice() {
        TypeOf::Bits(13)
    } else if word == b"time".as_slice() {
        TypeOf::Time
    } else {
        return sized_type(word);
    };
    Some(kind)
}

/// The trigger options that a word names.
#[tactic(auto, unfolding(crate::specs::Types::flags_at))]
pub fn flags_of(word: &[u8]) -> Option<Flags>
    ensures { result ≡ flags_at word.now }
{
    let (dchg, qchg, dupd) = if word == b"-".as_slice() {
        (false, false, false)
    } else if word == b"d".as_slice() {
        (true, false, false)
    } else if word == b"q".as_slice() {
        (false, true, false)
    } else if word == b"u".as_slice() {
        (false, false, true)
    } else if word == b"dq".as_slice() {
        (true, true, false)
    } else if word == b"du".as_slice() {
        (true, false, true)
    } else if word == b"qu".as_slice() {
        (false, true, true)
    } else if word == b"dqu".as_slice() {
        (true, true, true)
    } else {
        return None;
    };
    Some(Flags { dchg, qchg, dupd })
}
