//! The element of a bit string.

ghost use Rattle.std.specs.Prelude.{◌≡◌, ◌+◌, ◌-◌, ◌*◌, ◌/◌, ◌<◌, ◌≤◌, ◌^◌, ◌++◌, length, take};
ghost use Rattle.std.specs.Prelude.{drop, OnOk, OnErr};
ghost use Rattle.ber_write.specs.Minimal.{octets_of, CanBeTag};
ghost use Rattle.ber_write.specs.BitString.{weigh, bit_or_zero, first_octet, packed, unused_of};
ghost use Rattle.ber_write.specs.BitString.{bit_octets};

use crate::element::put_head;
use std::alloc::AllocError;

fn weight_at(bits: &[bool], place: usize, weight: u8) -> u8
    ensures value { result ≡ weigh (bit_or_zero bits.now place) weight }
    ensures bound { result ≤ weight }
{
    if place < bits.len() && bits[place] {
        weight
    } else {
        0
    }
}

/// The octet of the first eight bits, with 0 for those that lack.
fn first_octet_of(bits: &[bool]) -> u8
    ensures { result ≡ first_octet bits.now }
{
    weight_at(bits, 0, 128)
        + weight_at(bits, 1, 64)
        + weight_at(bits, 2, 32)
        + weight_at(bits, 3, 16)
        + weight_at(bits, 4, 8)
        + weight_at(bits, 5, 4)
        + weight_at(bits, 6, 2)
        + weight_at(bits, 7, 1)
}

/// The bits after the first eight.
fn behind_eight(bits: &[bool]) -> &[bool]
    ensures { result.now ≡ drop 8 bits.now }
{
    if bits.len() <= 8 { &[] } else { &bits[8..] }
}

fn put_packed(out: &mut Vec<u8>, value: &[bool]) -> Result<(), AllocError>
    ensures ok { OnOk result (out.new.items ≡ out.old.items ++ packed value.now) }
    ensures err { OnErr result (take (length out.old.items) out.new.items ≡ out.old.items) }
{
    let mut rest = value;
    while !rest.is_empty() {
        out.push(first_octet_of(rest))?;
        rest = behind_eight(rest);
    }
    Ok(())
}

/// How many bits of the last octet are unused where there are `count`.
fn unused_for(count: usize) -> u8
    ensures value { result ≡ unused_of count }
    ensures few { result ≤ 7 }
{
    (8 - (count % 8) as u8) % 8
}

/// How many octets the content that [`put_bits`] writes has.
#[tactic(auto, using(crate::proofs::BitLaws::length_of_bit_octets))]
pub fn bits_len(value: &[bool]) -> usize
    ensures value { result ≡ length (bit_octets value.now) }
    ensures count { result ≡ (length value.now + 7) / 8 + 1 }
{
    value.len().div_ceil(8) + 1
}

#[tactic(auto, unfolding(crate::specs::BitString::bit_octets))]
fn put_bit_parts(out: &mut Vec<u8>, tag: u32, value: &[bool]) -> Result<(), AllocError>
    requires tag { CanBeTag tag }
    requires len { length value.now ≤ 8 * (2 ^ 32 - 2) }
    ensures ok { OnOk result (out.new.items ≡ out.old.items ++ octets_of tag
        (bit_octets value.now)) }
    ensures err { OnErr result (take (length out.old.items) out.new.items ≡ out.old.items) }
{
    put_head(out, tag, bits_len(value) as u32)?;
    out.push(unused_for(value.len()))?;
    put_packed(out, value)
}

/// Adds a bit string as an element with this tag (X.690, 8.6): how many bits of the last octet are unused, and the bits,
/// the highest of each octet first. The bits that are unused are written as 0. As a content has at most 4294967295 octets,
/// there are at most 34359738352 bits.
///
/// Without memory `out` stays as it was.
pub fn put_bits(out: &mut Vec<u8>, tag: u32, value: &[bool]) -> Result<(), AllocError>
    requires tag { CanBeTag tag }
    requires len { length value.now ≤ 8 * (2 ^ 32 - 2) }
    ensures ok { OnOk result (out.new.items ≡ out.old.items ++ octets_of tag
        (bit_octets value.now)) }
    ensures err { OnErr result (out.new.items ≡ out.old.items) }
{
    let before = out.len();
    let done = put_bit_parts(out, tag, value);
    if done.is_err() {
        out.truncate(before);
    }
    done
}
