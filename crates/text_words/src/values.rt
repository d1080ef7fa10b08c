//! The values that words spell.

ghost use Rattle.std.specs.Prelude.{◌≡◌, ◌==◌, [], ◌≤◌, IfOk, length, map, option_copied};
ghost use Rattle.text_words.specs.Values.{truth_at, bits_at, text_at, hex_at, octets_at};
ghost use Rattle.text_words.specs.Values.{utc_of as utc_of_octets, time_at, value_at};
ghost use Rattle.text_words.specs.Values.{is_hex as hex_digit, is_graphic as graphic};
ghost use Rattle.text_words.specs.Values.{is_binary as binary, option_items};
ghost use Rattle.std.specs.List.{list_all};
ghost use Rattle.text_words.specs.Values.{values_at, option_values};
ghost use Rattle.text_words.specs.Words.{texts};
ghost use Rattle.text_words.specs.Numbers.{number_within, greatest};

use crate::numbers::{int, number_between};
use hex::FromHexError;
use std::alloc::{AllocError, Global};
use sv_base::{Bits, Few, Octs, TypeOf, Utc, Value};

/// No octets.
pub fn empty(alloc: Global) -> Octs
    ensures { result ≡ [] }
{
    Octs::from_vec(Vec::new(alloc))
}

/// The truth value that `T` or `F` spells.
pub fn truth(word: &[u8]) -> Option<bool>
    ensures { result ≡ truth_at word.now }
{
    if word == b"T".as_slice() {
        Some(true)
    } else if word == b"F".as_slice() {
        Some(false)
    } else {
        None
    }
}

fn is_binary(octet: u8) -> bool
    ensures { result ≡ binary octet }
{
    octet == b'0' || octet == b'1'
}

/// Every octet is a digit 0 or 1.
pub fn all_binary(word: &[u8]) -> bool
    ensures { result ≡ list_all binary word.now }
{
    word.iter().all(|octet| is_binary(*octet))
}

/// The truth values of digits 0 and 1.
pub fn truth_values(alloc: Global, word: &[u8]) -> Result<Vec<bool>, AllocError>
    ensures { IfOk result (λ v. v.items ≡ map (λ octet. octet == 49) word.now) }
{
    word.iter().map(|octet| *octet == b'1').collect(alloc)
}

/// An unsigned number of n bits, 8, 16 or 32.
fn uint(word: &[u8], bits: u8) -> Option<u64>
    ensures { result ≡ number_within 0 (greatest bits) word.now }
{
    let most = match bits {
        8 => 255,
        16 => 65535,
        _ => 4294967295,
    };
    number_between(word, 0, most).map(u64::from)
}

/// This many digits 0 and 1, the first bit first.
pub fn bits(alloc: Global, word: &[u8], count: u16) -> Result<Option<Bits>, AllocError>
    ensures { IfOk result (λ r. r ≡ bits_at count word.now) }
{
    if word.len() == usize::from(count) && all_binary(word) {
        return Ok(Some(Bits::from_vec(truth_values(alloc, word)?)));
    }
    Ok(None)
}

fn is_graphic(octet: u8) -> bool
    ensures { result ≡ graphic octet }
{
    octet >= 0x21 && octet <= 0x7e
}

/// Every octet is visible, 21 to 7E.
pub fn all_graphic(octets: &[u8]) -> bool
    ensures { result ≡ list_all graphic octets.now }
{
    octets.iter().all(|octet| is_graphic(*octet))
}

/// `'` and at most n visible octets.
pub fn text(alloc: Global, word: &[u8], most: u16) -> Result<Option<Octs>, AllocError>
    ensures { IfOk result (λ r. r ≡ text_at most word.now) }
{
    match word {
        [b'\'', octets @ ..] if octets.len() <= usize::from(most) && all_graphic(octets) => {
            Ok(Some(Octs::copied(alloc, octets)?))
        }
        _ => Ok(None),
    }
}

fn is_hex(octet: u8) -> bool
    ensures { result ≡ hex_digit octet }
{
    (octet >= b'0' && octet <= b'9') || (octet >= b'a' && octet <= b'f')
}

fn all_hex(digits: &[u8]) -> bool
    ensures { result ≡ list_all hex_digit digits.now }
{
    digits.iter().all(|octet| is_hex(*octet))
}

/// The octets that a hexadecimal text in lower case spells; none where it is no such text.
pub fn hex_octets(alloc: Global, digits: &[u8]) -> Result<Option<Vec<u8>>, AllocError>
    ensures { IfOk result (λ r. option_items r ≡ hex_at digits.now) }
{
    if !all_hex(digits) {
        return Ok(None);
    }
    match hex::decode(alloc, digits) {
        Ok(octets) => Ok(Some(octets)),
        Err(FromHexError::OutOfMemory) => Err(AllocError),
        Err(_) => Ok(None),
    }
}

/// `x` and at most n octets in hexadecimal.
fn octets(alloc: Global, word: &[u8], most: u16) -> Result<Option<Octs>, AllocError>
    ensures { IfOk result (λ r. r ≡ octets_at most word.now) }
{
    match word {
        [b'x', digits @ ..] if digits.len() <= 2 * usize::from(most) => {
            match hex_octets(alloc, digits)? {
                Some(octets) => Ok(Some(Octs::from_vec(octets))),
                None => Ok(None),
            }
        }
        _ => Ok(None),
    }
}

/// The moment of eight octets (ISO 9506-2, UtcTime).
fn utc(octets: &[u8]) -> Option<Utc>
    ensures { result ≡ utc_of_octets octets.now }
{
    match octets {
        [a, b, c, d, e, f, g, h] => Some(Utc {
            secs: ((u32::from(*a) * 256 + u32::from(*b)) * 256 + u32::from(*c)) * 256
                + u32::from(*d),
            frac: (u32::from(*e) * 256 + u32::from(*f)) * 256 + u32::from(*g),
            quality: *h,
        }),
        _ => None,
    }
}

/// Sixteen hexadecimal digits.
fn time(alloc: Global, word: &[u8]) -> Result<Option<Utc>, AllocError>
    ensures { IfOk result (λ r. r ≡ time_at word.now) }
{
    if word.len() != 16 {
        return Ok(None);
    }
    match hex_octets(alloc, word)? {
        Some(octets) => Ok(utc(&octets)),
        None => Ok(None),
    }
}

/// The value of a type that a word spells.
#[tactic(auto, unfolding(crate::specs::Values::value_at))]
pub fn value(alloc: Global, kind: &TypeOf, word: &[u8]) -> Result<Option<Value>, AllocError>
    ensures { IfOk result (λ r. r ≡ value_at kind.now word.now) }
{
    let read = match kind {
        TypeOf::Bool => truth(word).map(Value::Bool),
        TypeOf::Int(bits) => int(word, *bits).map(Value::Int),
        TypeOf::Uint(bits) => uint(word, *bits).map(Value::Uint),
        TypeOf::Bits(count) => bits(alloc, word, *count)?.map(Value::Bits),
        TypeOf::Time => time(alloc, word)?.map(Value::Time),
        TypeOf::Text(most) => text(alloc, word, *most)?.map(Value::Text),
        TypeOf::Octets(most) => octets(alloc, word, *most)?.map(Value::Octets),
        _ => None,
    };
    Ok(read)
}

/// The values that words spell, in a vector, if each does.
fn listed(alloc: Global, kind: &TypeOf, words: &[&[u8]]) -> Result<Option<Vec<Value>>, AllocError>
    ensures { IfOk result (λ r. option_values r ≡ values_at kind.now (texts words.now)) }
{
    let mut values = Vec::with_capacity(alloc, words.len())?;
    for word in words {
        match value(alloc, kind, word)? {
            Some(value) => values.push(value)?,
            None => return Ok(None),
        }
    }
    Ok(Some(values))
}

/// The values that words spell, if each does. That of one word takes no memory besides its own.
pub fn values_of(
    alloc: Global,
    kind: &TypeOf,
    words: &[&[u8]],
) -> Result<Option<Few<Value>>, AllocError>
    ensures { IfOk result (λ r. r ≡ values_at kind.now (texts words.now)) }
{
    if let [word] = words {
        return match value(alloc, kind, word)? {
            Some(value) => Ok(Some(Few::one(value))),
            None => Ok(None),
        };
    }
    match listed(alloc, kind, words)? {
        Some(values) => Ok(Some(Few::many(values))),
        None => Ok(None),
    }
}
