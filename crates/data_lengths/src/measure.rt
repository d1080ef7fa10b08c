//! How many octets the Data of a value has (ISO 9506-2, Data; ITU-T X.690).

ghost use Rattle.std.specs.Prelude.{◌≡◌, ◌+◌, ◌∷◌, ◌≤◌, ◌==◌, ◌&&◌, ◌||◌, nat_lt, length, min};
ghost use Rattle.std.specs.Int.{to_be_bytes, cast_unsigned, w64, w32};
ghost use Rattle.sv_base.specs.Data.{without_zeros as without_zeros_of, length_field};
ghost use Rattle.sv_base.specs.Data.{shortest as shortest_of, packed, data_of, data_row};
ghost use Rattle.sv_base.specs.Seen.{row_of};

use sv_base::{Bits, Octs, Value};

/// The octets without the zeros in front.
pub fn without_zeros(octets: &[u8]) -> &[u8]
    ensures value { result.now ≡ without_zeros_of octets.now }
    ensures shorter { length result.now ≤ length octets.now }
{
    match octets {
        [0, ..] => without_zeros(&octets[1..]),
        _ => octets,
    }
}

/// The first octet of a number in two's complement says no more than the sign of the second.
fn is_idle(first: u8, second: u8) -> bool
    ensures { result ≡ (((first == 0) && nat_lt second 128)
        || ((first == 255) && nat_lt 127 second)) }
{
    (first == 0 && second < 128) || (first == 255 && second > 127)
}

/// The octets of a number in two's complement without those in front that say no more than the sign of the next one
/// (ITU-T X.690, 8.3.2).
pub fn shortest(octets: &[u8]) -> &[u8]
    ensures value { result.now ≡ shortest_of octets.now }
    ensures shorter { length result.now ≤ length octets.now }
{
    let mut at = 0;
    while at + 1 < octets.len() && is_idle(octets[at], octets[at + 1]) {
        at += 1;
    }
    &octets[at..]
}

/// How many octets spell the length of a content of n octets, 1 to 5.
fn length_len(content: u32) -> u32
    ensures value { result ≡ length (length_field content) }
    ensures few { result ≤ 5 }
{
    if content < 128 {
        return 1;
    }
    1 + without_zeros(&content.to_be_bytes()).len() as u32
}

/// How many octets an element has whose tag has one octet and whose content has n (ITU-T X.690, 8.1), and
/// 4294967295 where there are more.
pub fn element_len(content: u32) -> u32
    ensures { result ≡ min (1 + (length (length_field content) + content)) 4294967295 }
{
    content.saturating_add(1 + length_len(content))
}

/// How many octets the content of an integer has.
fn int_len(value: i64) -> u32
    ensures value { result ≡ length (shortest_of (to_be_bytes w64 (cast_unsigned w64 value))) }
    ensures few { result ≤ 8 }
{
    shortest(&value.to_be_bytes()).len() as u32
}

/// How many octets the content of an unsigned number has.
fn uint_len(value: u64) -> u32
    ensures value { result ≡ length (shortest_of (0 ∷ to_be_bytes w64 value)) }
    ensures few { result ≤ 9 }
{
    let [a, b, c, d, e, f, g, h] = value.to_be_bytes();
    shortest(&[0, a, b, c, d, e, f, g, h]).len() as u32
}

/// How many octets the content of a bit string has, and 4294967295 where there are more.
fn bits_len(bits: &Bits) -> u32
    ensures { result ≡ min (1 + length (packed 128 0 bits.now)) 4294967295 }
{
    (1 + bits.len().div_ceil(8)).min(4294967295) as u32
}

/// How many octets there are, and 4294967295 where there are more.
fn octs_len(octets: &Octs) -> u32
    ensures { result ≡ min (length octets.now) 4294967295 }
{
    octets.len().min(4294967295) as u32
}

/// How many octets the MMS Data of a value has in its minimal spelling (ISO 9506-2, Data), and 4294967295 where there
/// are more. `Other` has no spelling here and counts as none.
#[cycle(len)]
pub fn data_len(value: &Value) -> u32
    ensures { result ≡ min (length (data_of value.now)) 4294967295 }
{
    match value {
        Value::Bool(_) => 3,
        Value::Int(z) => element_len(int_len(*z)),
        Value::Uint(n) => element_len(uint_len(*n)),
        Value::Bits(bits) => element_len(bits_len(bits)),
        Value::Time(_) => 10,
        Value::Stamp(_) => 8,
        Value::Text(octets) => element_len(octs_len(octets)),
        Value::Octets(octets) => element_len(octs_len(octets)),
        Value::Struct(values) => element_len(row_len(values.as_slice())),
        Value::Other => 0,
    }
}

/// How many octets the values have one after another, and 4294967295 where there are more.
#[cycle(len)]
pub fn row_len(values: &[Value]) -> u32
    ensures { result ≡ min (length (data_row (row_of values.now))) 4294967295 }
{
    let mut sum = 0u32;
    for value in values {
        sum = sum.saturating_add(data_len(value));
    }
    sum
}
