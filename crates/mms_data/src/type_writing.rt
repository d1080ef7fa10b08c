//! Types, written.

ghost use Rattle.std.specs.Prelude.{◌≡◌, ◌+◌, ◌≤◌, ◌<◌, ◌^◌, ◌++◌, length, take, min, OnOk, OnErr};
ghost use Rattle.ber_write.specs.Minimal.{length_octets, octets_of};
ghost use Rattle.mms_data.specs.TypeOctets.{at_most, type_of, part_content, part_octets};
ghost use Rattle.mms_data.specs.TypeOctets.{parts_octets, FitsType, FitsPart, FitsParts};

use crate::tags;
use ber_write::{int_len, length_of, put, put_head, put_int, put_uint, uint_len};
use std::alloc::AllocError;
use sv_base::{Part1, TypeOf};

/// How many octets an element has whose tag is one octet and whose content has that many, and 4294967295 where there are
/// more.
fn element_len(content: u32) -> u32
    ensures { result ≡ min (1 + (length (length_octets content) + content)) 4294967295 }
{
    content.saturating_add(1 + length_of(content))
}

/// How many octets there are, and 4294967295 where there are more.
fn slice_len(octets: &[u8]) -> u32
    ensures { result ≡ min (length octets.now) 4294967295 }
{
    octets.len().min(4294967295) as u32
}

/// A greatest size is written as a negative number.
fn greatest(size: u16) -> i64
    ensures { result ≡ at_most size }
{
    -i64::from(size)
}

/// How many octets a type has, and 4294967295 where there are more.
#[cycle(len)]
fn type_len(kind: &TypeOf) -> u32
    ensures { result ≡ min (length (type_of kind.now)) 4294967295 }
{
    match kind {
        TypeOf::Bool => 2,
        TypeOf::Int(size) => element_len(uint_len(u64::from(*size))),
        TypeOf::Uint(size) => element_len(uint_len(u64::from(*size))),
        TypeOf::Bits(count) => element_len(int_len(i64::from(*count))),
        TypeOf::Time => 2,
        TypeOf::Stamp => 3,
        TypeOf::Text(size) => element_len(int_len(greatest(*size))),
        TypeOf::Octets(size) => element_len(int_len(greatest(*size))),
        TypeOf::EntryId => 3,
        TypeOf::Struct(parts) => element_len(element_len(parts_len(parts.as_slice()))),
    }
}

/// How many octets the content of a component has, and 4294967295 where there are more.
#[cycle(len)]
fn part_len(part: &Part1) -> u32
    ensures { result ≡ min (length (part_content part.now)) 4294967295 }
{
    let name = element_len(slice_len(part.name.as_slice()));
    name.saturating_add(element_len(type_len(&part.kind)))
}

/// How many octets the components have one after another, and 4294967295 where there are more.
#[cycle(len)]
fn parts_len(parts: &[Part1]) -> u32
    ensures { result ≡ min (length (parts_octets parts.now)) 4294967295 }
{
    let mut sum = 0u32;
    for part in parts {
        sum = sum.saturating_add(element_len(part_len(part)));
    }
    sum
}

#[cycle(put)]
fn put_type(kind: &TypeOf, out: &mut Vec<u8>) -> Result<(), AllocError>
    requires { FitsType kind.now }
    ensures ok { OnOk result (out.new.items ≡ out.old.items ++ type_of kind.now) }
    ensures err { OnErr result (take (length out.old.items) out.new.items ≡ out.old.items) }
{
    match kind {
        TypeOf::Bool => put(out, tags::BOOLEAN, &[]),
        TypeOf::Int(size) => put_uint(out, tags::INTEGER, u64::from(*size)),
        TypeOf::Uint(size) => put_uint(out, tags::UNSIGNED, u64::from(*size)),
        TypeOf::Bits(count) => put_int(out, tags::BIT_STRING, i64::from(*count)),
        TypeOf::Time => put(out, tags::UTC_TIME, &[]),
        TypeOf::Stamp => put(out, tags::BINARY_TIME, &[0xff]),
        TypeOf::Text(size) => put_int(out, tags::VISIBLE_STRING, greatest(*size)),
        TypeOf::Octets(size) => put_int(out, tags::OCTET_STRING, greatest(*size)),
        TypeOf::EntryId => put_int(out, tags::OCTET_STRING, 8),
        TypeOf::Struct(parts) => {
            let parts = parts.as_slice();
            let len = parts_len(parts);
            put_head(out, tags::STRUCTURE, element_len(len))?;
            put_head(out, tags::COMPONENTS, len)?;
            put_parts(parts, out)
        }
    }
}

#[cycle(put)]
fn put_part(part: &Part1, out: &mut Vec<u8>) -> Result<(), AllocError>
    requires { FitsPart part.now }
    ensures ok { OnOk result (out.new.items ≡ out.old.items ++ part_octets part.now) }
    ensures err { OnErr result (take (length out.old.items) out.new.items ≡ out.old.items) }
{
    put_head(out, tags::COMPONENT, part_len(part))?;
    put(out, tags::COMPONENT_NAME, part.name.as_slice())?;
    put_head(out, tags::COMPONENT_TYPE, type_len(&part.kind))?;
    put_type(&part.kind, out)
}

#[cycle(put)]
fn put_parts(parts: &[Part1], out: &mut Vec<u8>) -> Result<(), AllocError>
    requires { FitsParts parts.now }
    ensures ok { OnOk result (out.new.items ≡ out.old.items ++ parts_octets parts.now) }
    ensures err { OnErr result (take (length out.old.items) out.new.items ≡ out.old.items) }
{
    for part in parts {
        put_part(part, out)?;
    }
    Ok(())
}

/// Adds a type in its minimal spelling (ISO 9506-2, TypeDescription): a number by its size in bits, a bit string by its
/// count of bits, a text and an octet string by the greatest length with its sign turned round, an EntryID as an octet
/// string of 8, a structure by the names and types of its components.
///
/// Without memory `out` stays as it was; so it does where the type has 4294967295 octets or more.
pub fn write_type(kind: &TypeOf, out: &mut Vec<u8>) -> Result<(), AllocError>
    ensures ok { OnOk result (out.new.items ≡ out.old.items ++ type_of kind.now) }
    ensures err { OnErr result (out.new.items ≡ out.old.items) }
{
    if type_len(kind) == u32::MAX {
        return Err(AllocError);
    }
    let before = out.len();
    let done = put_type(kind, out);
    if done.is_err() {
        out.truncate(before);
    }
    done
}
