//! MMS Data in its minimal spelling (ISO 9506-2, Data; ITU-T X.690), into memory that was made before.

ghost use Rattle.std.specs.Prelude.{suc, ◌≡◌, ◌≤◌, ◌<◌, ◌^◌, ◌+◌, ◌-◌, ◌*◌, ◌++◌, ◌∷◌, length};
ghost use Rattle.std.specs.Prelude.{take, drop};
ghost use Rattle.mms_data.specs.declared.tags.TheConstants.{STRUCTURE};
ghost use Rattle.std.specs.Int.{to_be_bytes, cast_unsigned, w64};
ghost use Rattle.sv_base.specs.Data.{length_field, element as element_of, packed};
ghost use Rattle.sv_base.specs.Data.{shortest as shortest_in, data_of};
ghost use Rattle.bay_rooms.specs.Slots.{lent};
ghost use Rattle.value_store.specs.Written.{adds, IsShort};
ghost use Rattle.sv_base.specs.declared.value.Value.TheVariants as values;

use bay_rooms::{Fixed, ValueRef};
use ber_write::{length_parts, unsigned};
use data_lengths::shortest;
use mms_data::{stamp_octets, tags, time_octets};

/// The octets of a length.
fn put_length(out: &mut Fixed, content: u32)
    requires { length out.old.items + length (length_field content) ≤ out.old.room }
    ensures { out.new ≡ adds out.old (length_field content) }
{
    let octets = content.to_be_bytes();
    let (first, more) = length_parts(content, &octets);
    out.push_array([first]);
    out.push(more);
}

/// The head of a structure whose content begins at a place, put in front of it.
pub(crate) fn put_head(out: &mut Fixed, at: usize)
    requires place { at ≤ length out.old.items }
    requires small { length out.old.items - at < 2 ^ 32 }
    requires room { at + length (element_of STRUCTURE (drop at out.old.items)) ≤ out.old.room }
    ensures { out.new ≡ record {
      items = take at out.old.items ++ element_of STRUCTURE
          (drop at out.old.items);
      room = out.old.room;
    } }
{
    let content = (out.len() - at) as u32;
    let octets = content.to_be_bytes();
    let (first, more) = length_parts(content, &octets);
    out.insert(at, more);
    out.insert(at, &[tags::STRUCTURE as u8, first]);
}

/// The tag of an element, and the length of its content.
fn put_front(out: &mut Fixed, tag: u8, content: u32)
    requires { length out.old.items + length (tag ∷ length_field content) ≤ out.old.room }
    ensures { out.new ≡ adds out.old (tag ∷ length_field content) }
{
    if content < 128 {
        out.push_array([tag, content as u8]);
        return;
    }
    out.push_array([tag]);
    put_length(out, content);
}

/// An element of this tag and this content, however long it is.
fn put_long(out: &mut Fixed, tag: u8, content: &[u8])
    requires small { length content.now < 2 ^ 32 }
    requires room { length out.old.items + length (element_of tag content.now) ≤ out.old.room }
    ensures { out.new ≡ adds out.old (element_of tag content.now) }
{
    put_front(out, tag, content.len() as u32);
    out.push(content);
}

/// An element of this tag and this content. Most have few octets, and those are added at once.
fn put_element(out: &mut Fixed, tag: u8, content: &[u8])
    requires small { length content.now < 2 ^ 32 }
    requires room { length out.old.items + length (element_of tag content.now) ≤ out.old.room }
    ensures { out.new ≡ adds out.old (element_of tag content.now) }
{
    match content {
        [a] => out.push_array([tag, 1, *a]),
        [a, b] => out.push_array([tag, 2, *a, *b]),
        [a, b, c] => out.push_array([tag, 3, *a, *b, *c]),
        [a, b, c, d] => out.push_array([tag, 4, *a, *b, *c, *d]),
        _ => put_long(out, tag, content),
    }
}

/// The octets of bits, the first bit the highest. `weight` is that of the next bit, 128 down to 1, and `sum` those of the
/// bits before it in its octet.
fn put_packed(out: &mut Fixed, weight: u8, sum: u8, bits: &[bool])
    requires weight { (0 < weight) × (sum + 2 * weight ≤ 256) }
    requires room { length out.old.items + length (packed weight sum bits.now) ≤ out.old.room }
    ensures { out.new ≡ adds out.old (packed weight sum bits.now) }
{
    match bits {
        [] => {
            if weight < 128 {
                out.push_array([sum]);
            }
        }
        [bit, rest @ ..] => {
            let sum = if *bit { sum + weight } else { sum };
            if weight == 1 {
                out.push_array([sum]);
                put_packed(out, 128, 0, rest);
            } else {
                put_packed(out, weight / 2, sum, rest);
            }
        }
    }
}

/// How many octets the content of a bit string has.
fn bits_len(bits: &[bool]) -> u32
    requires { length bits.now < 2 ^ 32 }
    ensures { result ≡ suc (length (packed 128 0 bits.now)) }
{
    (bits.len().div_ceil(8) + 1) as u32
}

/// A bit string.
fn put_bits(out: &mut Fixed, bits: &[bool])
    requires small { length bits.now < 2 ^ 32 }
    requires room { length out.old.items + length (data_of (values.Bits bits.now)) ≤ out.old.room }
    ensures { out.new ≡ adds out.old (data_of (values.Bits bits.now)) }
{
    out.push_array([tags::BIT_STRING as u8]);
    put_length(out, bits_len(bits));
    out.push_array([((8 - bits.len() % 8) % 8) as u8]);
    put_packed(out, 128, 0, bits);
}

/// The octets of a signed number without those in front that say no more than its sign. Of a number of 16 bits all octets before
/// the last two are such, of one of 32 bits all before the last four.
fn shortest_of(octets: &[u8; 8], z: i64) -> &[u8]
    requires { octets.now ≡ to_be_bytes w64 (cast_unsigned w64 z) }
    ensures value { result.now ≡ shortest_in octets.now }
    ensures shorter { length result.now ≤ length octets.now }
{
    if -32768 <= z && z < 32768 {
        shortest(&octets[6..])
    } else if -2147483648 <= z && z < 2147483648 {
        shortest(&octets[4..])
    } else {
        shortest(octets)
    }
}

/// The Data of a value, whose text, octets or bits are below 2^32.
pub(crate) fn put_value(out: &mut Fixed, value: ValueRef<'_>)
    requires small { IsShort (lent value) }
    requires room { length out.old.items + length (data_of (lent value)) ≤ out.old.room }
    ensures { out.new ≡ adds out.old (data_of (lent value.entry)) }
{
    match value {
        ValueRef::Bool(b) => out.push_array([tags::BOOLEAN as u8, 1, if b { 255 } else { 0 }]),
        ValueRef::Int(z) => {
            put_element(out, tags::INTEGER as u8, shortest_of(&z.to_be_bytes(), z))
        }
        ValueRef::Uint(n) => put_element(out, tags::UNSIGNED as u8, shortest(&unsigned(n))),
        ValueRef::Bits(bits) => put_bits(out, bits),
        ValueRef::Time(time) => put_element(out, tags::UTC_TIME as u8, &time_octets(time)),
        ValueRef::Stamp(stamp) => put_element(out, tags::BINARY_TIME as u8, &stamp_octets(stamp)),
        ValueRef::Text(text) => put_element(out, tags::VISIBLE_STRING as u8, text),
        ValueRef::Octets(octets) => put_element(out, tags::OCTET_STRING as u8, octets),
    }
}
