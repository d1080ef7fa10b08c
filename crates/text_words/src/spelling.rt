//! Words, numbers, types and values, each spelled after a space.

ghost use Rattle.std.specs.Prelude.{◌≡◌, ◌++◌, ◌∷◌, length, take, OnOk, OnErr};
ghost use Rattle.std.specs.Fmt.{decimal};
ghost use Rattle.std.specs.List.{flat_map};
ghost use Rattle.hex.specs.Hex.{encode_lower};
ghost use Rattle.text_words.specs.Spelled.{bits_word as word_of_bits, text_word};
ghost use Rattle.text_words.specs.Spelled.{time_octets as octets_of_time};
ghost use Rattle.text_words.specs.Spelled.{value_word as word_of_value};
ghost use Rattle.text_words.specs.Spelled.{type_word as word_of_type, flags_word as word_of_flags};
ghost use Rattle.text_words.specs.Spelled.{spaced};

use itoa::Buffer;
use std::alloc::{AllocError, Global};
use sv_base::{TypeOf, Utc, Value};

/// Adds a space and a word.
pub fn push_word(out: &mut Vec<u8>, word: &[u8]) -> Result<(), AllocError>
    ensures ok { OnOk result (out.new.items ≡ out.old.items ++ spaced word.now) }
    ensures err { OnErr result (take (length out.old.items) out.new.items ≡ out.old.items) }
{
    out.push(b' ')?;
    out.extend_from_slice(word)
}

/// Adds a space and a number.
pub fn push_number(out: &mut Vec<u8>, n: u64) -> Result<(), AllocError>
    ensures ok { OnOk result (out.new.items ≡ out.old.items ++ spaced (decimal n)) }
    ensures err { OnErr result (take (length out.old.items) out.new.items ≡ out.old.items) }
{
    push_word(out, Buffer::new().format(n).as_bytes())
}

/// Adds a space and digits 0 and 1.
pub fn push_bits(out: &mut Vec<u8>, bits: &[bool]) -> Result<(), AllocError>
    ensures { OnOk result (out.new.items ≡ out.old.items ++ spaced (word_of_bits bits.now)) }
{
    out.push(b' ')?;
    for bit in bits {
        out.push(if *bit { b'1' } else { b'0' })?;
    }
    Ok(())
}

/// Adds a space and a text.
pub fn push_text(out: &mut Vec<u8>, octets: &[u8]) -> Result<(), AllocError>
    ensures { OnOk result (out.new.items ≡ out.old.items ++ spaced (text_word octets.now)) }
{
    out.extend_from_slice(b" '")?;
    out.extend_from_slice(octets)
}

/// Adds octets in hexadecimal.
fn push_hex(alloc: Global, out: &mut Vec<u8>, octets: &[u8]) -> Result<(), AllocError>
    ensures { OnOk result (out.new.items ≡ out.old.items ++ encode_lower octets.now) }
{
    let text = hex::encode(alloc, octets)?;
    out.extend_from_slice(text.as_bytes())
}

/// The eight octets of a moment (ISO 9506-2, UtcTime).
fn time_octets(time: Utc) -> [u8; 8]
    ensures { result ≡ octets_of_time time }
{
    let [a, b, c, d] = time.secs.to_be_bytes();
    let high = (time.frac / 65536 % 256) as u8;
    let middle = (time.frac / 256 % 256) as u8;
    let low = (time.frac % 256) as u8;
    [a, b, c, d, high, middle, low, time.quality]
}

/// Adds a space and a moment.
fn push_time(alloc: Global, out: &mut Vec<u8>, time: Utc) -> Result<(), AllocError>
    ensures { OnOk result (out.new.items ≡ out.old.items ++ spaced
        (encode_lower (octets_of_time time))) }
{
    out.push(b' ')?;
    push_hex(alloc, out, &time_octets(time))
}

/// Adds a space and octets.
fn push_octets(alloc: Global, out: &mut Vec<u8>, octets: &[u8]) -> Result<(), AllocError>
    ensures { OnOk result (out.new.items ≡ out.old.items ++ spaced
        (120 ∷ encode_lower octets.now)) }
{
    out.extend_from_slice(b" x")?;
    push_hex(alloc, out, octets)
}

/// Adds a space and a value.
#[tactic(auto, unfolding(crate::specs::Spelled::value_word))]
fn push_value(alloc: Global, out: &mut Vec<u8>, value: &Value) -> Result<(), AllocError>
    ensures { OnOk result (out.new.items ≡ out.old.items ++ spaced (word_of_value value.now)) }
{
    match value {
        Value::Bool(b) => push_word(out, if *b { b"T" } else { b"F" }),
        Value::Int(z) => push_word(out, Buffer::new().format(*z).as_bytes()),
        Value::Uint(n) => push_number(out, *n),
        Value::Bits(bits) => push_bits(out, bits.as_slice()),
        Value::Time(time) => push_time(alloc, out, *time),
        Value::Text(octets) => push_text(out, octets.as_slice()),
        Value::Octets(octets) => push_octets(alloc, out, octets.as_slice()),
        _ => push_word(out, b""),
    }
}

/// Adds each value after a space.
pub fn push_values(alloc: Global, out: &mut Vec<u8>, values: &[Value]) -> Result<(), AllocError>
    ensures { OnOk result (out.new.items ≡ out.old.items ++ flat_map
        (λ v. spaced (word_of_value v)) values.now) }
{
    for value in values {
        push_value(alloc, out, value)?;
    }
    Ok(())
}

/// Adds a space, the name of a type and its size.
fn push_sized(out: &mut Vec<u8>, name: &[u8], size: u16) -> Result<(), AllocError>
    ensures { OnOk result (out.new.items ≡ out.old.items ++ spaced (name.now ++ decimal size)) }
{
    push_word(out, name)?;
    out.extend_from_slice(Buffer::new().format(size).as_bytes())
}

/// Adds a space and a type.
#[tactic(auto, unfolding(crate::specs::Spelled::type_word))]
pub fn push_type(out: &mut Vec<u8>, kind: &TypeOf) -> Result<(), AllocError>
    ensures { OnOk result (out.new.items ≡ out.old.items ++ spaced (word_of_type kind.now)) }
{
    match kind {
        TypeOf::Bool => push_word(out, b"bool"),
        TypeOf::Int(bits) => push_sized(out, b"int", u16::from(*bits)),
        TypeOf::Uint(bits) => push_sized(out, b"uint", u16::from(*bits)),
        TypeOf::Bits(count) => push_sized(out, b"bits", *count),
        TypeOf::Time => push_word(out, b"time"),
        TypeOf::Text(most) => push_sized(out, b"text", *most),
        TypeOf::Octets(most) => push_sized(out, b"octets", *most),
        _ => push_word(out, b""),
    }
}

/// The letters of trigger options.
pub fn flags_word(dchg: bool, qchg: bool, dupd: bool) -> &'static [u8]
    ensures { result.now ≡ word_of_flags dchg qchg dupd }
{
    match (dchg, qchg, dupd) {
        (true, true, true) => b"dqu",
        (true, true, false) => b"dq",
        (true, false, true) => b"du",
        (true, false, false) => b"d",
        (false, true, true) => b"qu",
        (false, true, false) => b"q",
        (false, false, true) => b"u",
        (false, false, false) => b"-",
    }
}
