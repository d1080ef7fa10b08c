//! Octets of BER (ITU-T X.690) at the edges of lengths, tags and numbers: what is read of them, and what is written.

ghost use Rattle.std.specs.Prelude.{IfOk};

use ber_view::{BerFault, bits, first, int, text, uint};
use ber_write::{put_bits, put_head, put_int, put_uint};
use std::alloc::{AllocError, Global};
use std::test::*;

/// What octets are.
enum Told {
    /// They begin with an element of this tag, and its head, its content and the rest have n octets.
    Element(u32, usize, usize, usize),
    NoElement(BerFault),
    /// The content of an integer, or of an unsigned one.
    Signed(i64),
    NotSigned,
    Unsigned(u64),
    NotUnsigned,
    /// The content of a bit string.
    Bits(&'static [bool]),
    NoBits,
    NoText,
    /// What is written of an element: the tag a4 and a length, a number, bits.
    Length(u32),
    Int(i64),
    Uint(u64),
    BitString(&'static [bool]),
}

/// The options of a server's report, and the parameters of an association.
const OPTIONS: [bool; 10] = [
    false, true, true, true, false, false, true, true, true, false,
];

const ELEVEN: [bool; 11] = [
    true, true, true, true, false, false, false, true, false, false, false,
];

/// The octets that clause 8.6.4 has for an example, 0A3B5F291CD in hexadecimal.
const EXAMPLE: [bool; 44] = [
    false, false, false, false, true, false, true, false, false, false, true, true, true, false,
    true, true, false, true, false, true, true, true, true, true, false, false, true, false, true,
    false, false, true, false, false, false, true, true, true, false, false, true, true, false,
    true,
];

static ROWS: [(&[u8], Told); 66] = [
    // tags of one to three octets, lengths of one to five
    (b"\x1a\x04BAY1\x05", Told::Element(0x1a, 2, 4, 1)),
    (b"\x80\x00", Told::Element(0x80, 2, 0, 0)),
    (b"\x85\x81\x01\x07", Told::Element(0x85, 3, 1, 0)),
    (
        b"\x85\x84\x00\x00\x00\x02\x07\x08\x09",
        Told::Element(0x85, 6, 2, 1),
    ),
    (b"\x9f\x20\x01\x07", Told::Element(0x9f20, 3, 1, 0)),
    (b"\xbf\x81\x02\x00", Told::Element(0xbf8102, 4, 0, 0)),
    // cut off, or of a length or a tag that is refused
    (b"", Told::NoElement(BerFault::Short)),
    (b"\x85", Told::NoElement(BerFault::Short)),
    (b"\x85\x02\x01", Told::NoElement(BerFault::Short)),
    (b"\x85\x82\x01", Told::NoElement(BerFault::Short)),
    (
        b"\x85\x84\xff\xff\xff\xff",
        Told::NoElement(BerFault::Short),
    ),
    (b"\x9f", Told::NoElement(BerFault::Short)),
    (b"\x85\x80", Told::NoElement(BerFault::Indefinite)),
    (
        b"\x85\x85\x00\x00\x00\x00\x01\x07",
        Told::NoElement(BerFault::LongLength),
    ),
    (b"\x85\xff", Told::NoElement(BerFault::LongLength)),
    (b"\xbf\x81\x82", Told::NoElement(BerFault::BadTag)),
    (b"\xbf\x81\x82\x03", Told::NoElement(BerFault::BadTag)),
    // integers of one to nine octets, also longer than needed
    (b"\x00\x80", Told::Signed(128)),
    (b"\x7f", Told::Signed(127)),
    (b"\x80", Told::Signed(-128)),
    (b"\xff\x7f", Told::Signed(-129)),
    (b"\x00\x00\x05", Told::Signed(5)),
    (b"\x80\x00\x00\x00\x00\x00\x00\x00", Told::Signed(i64::MIN)),
    (
        b"\xff\x80\x00\x00\x00\x00\x00\x00\x00",
        Told::Signed(i64::MIN),
    ),
    (b"", Told::NotSigned),
    (b"\x00\x80\x00\x00\x00\x00\x00\x00\x00", Told::NotSigned),
    (b"\x00\x00\x00\x00\x00\x00\x00\x00\x00\x01", Told::NotSigned),
    (b"\x3b\x9a\xca\x00", Told::Unsigned(1_000_000_000)),
    (
        b"\x00\xff\xff\xff\xff\xff\xff\xff\xff",
        Told::Unsigned(u64::MAX),
    ),
    (b"", Told::NotUnsigned),
    (b"\xff", Told::NotUnsigned),
    (b"\x01\x00\x00\x00\x00\x00\x00\x00\x00", Told::NotUnsigned),
    // bit strings, and texts
    (b"\x04\x0a\x3b\x5f\x29\x1c\xd0", Told::Bits(&EXAMPLE)),
    (b"\x06\x80", Told::Bits(&[true, false])),
    (b"\x00", Told::Bits(&[])),
    (b"", Told::NoBits),
    (b"\x08\x00", Told::NoBits),
    (b"\x01", Told::NoBits),
    (b"A\x0a", Told::NoText),
    (b"\x7f", Told::NoText),
    // what is written: lengths (201 is the example of clause 8.1.3.5)
    (b"\xa4\x00", Told::Length(0)),
    (b"\xa4\x7f", Told::Length(127)),
    (b"\xa4\x81\x80", Told::Length(128)),
    (b"\xa4\x81\xc9", Told::Length(201)),
    (b"\xa4\x81\xff", Told::Length(255)),
    (b"\xa4\x82\x01\x00", Told::Length(256)),
    (b"\xa4\x82\xff\xff", Told::Length(65535)),
    (b"\xa4\x83\x01\x00\x00", Told::Length(65536)),
    (b"\xa4\x83\xff\xff\xff", Told::Length(16777215)),
    (b"\xa4\x84\x01\x00\x00\x00", Told::Length(16777216)),
    (b"\xa4\x84\xff\xff\xff\xff", Told::Length(u32::MAX)),
    // numbers
    (b"\x85\x01\x00", Told::Int(0)),
    (b"\x85\x01\x7f", Told::Int(127)),
    (b"\x85\x02\x00\x80", Told::Int(128)),
    (b"\x85\x01\x80", Told::Int(-128)),
    (b"\x85\x02\xff\x7f", Told::Int(-129)),
    (
        b"\x85\x08\x7f\xff\xff\xff\xff\xff\xff\xff",
        Told::Int(i64::MAX),
    ),
    (
        b"\x85\x08\x80\x00\x00\x00\x00\x00\x00\x00",
        Told::Int(i64::MIN),
    ),
    (b"\x86\x01\x00", Told::Uint(0)),
    (b"\x86\x02\x00\xff", Told::Uint(255)),
    (b"\x86\x03\x00\xfd\xe8", Told::Uint(65000)),
    (
        b"\x86\x09\x00\xff\xff\xff\xff\xff\xff\xff\xff",
        Told::Uint(u64::MAX),
    ),
    // bit strings
    (b"\x84\x01\x00", Told::BitString(&[])),
    (
        b"\x84\x02\x00\x73",
        Told::BitString(&[false, true, true, true, false, false, true, true]),
    ),
    (b"\x84\x03\x06\x73\x80", Told::BitString(&OPTIONS)),
    (b"\x84\x03\x05\xf1\x00", Told::BitString(&ELEVEN)),
];

fn is_element(octets: &[u8], wanted: (u32, usize, usize, usize)) -> bool {
    match first(octets) {
        Ok((found, rest)) => (found.tag, found.head, found.content.len(), rest.len()) == wanted,
        Err(_) => false,
    }
}

fn are_bits(content: &[u8], wanted: &[bool]) -> bool {
    let Ok(found) = bits(content) else {
        return false;
    };
    for (place, bit) in wanted.iter().enumerate() {
        if found.get(place) != Some(*bit) {
            return false;
        }
    }
    found.len() == wanted.len()
}

fn is_read(octets: &[u8], told: &Told) -> bool {
    match told {
        Told::Element(tag, head, content, rest) => {
            is_element(octets, (*tag, *head, *content, *rest))
        }
        Told::NoElement(fault) => first(octets).err() == Some(*fault),
        Told::Signed(value) => int(octets) == Ok(*value),
        Told::NotSigned => int(octets) == Err(BerFault::BadNumber),
        Told::Unsigned(value) => uint(octets) == Ok(*value),
        Told::NotUnsigned => uint(octets) == Err(BerFault::BadNumber),
        Told::Bits(wanted) => are_bits(octets, wanted),
        Told::NoBits => matches!(bits(octets), Err(BerFault::BadNumber)),
        Told::NoText => text(octets) == Err(BerFault::BadText),
        _ => false,
    }
}

/// What is written of it; nothing where it is read.
fn written(alloc: Global, told: &Told) -> Result<Vec<u8>, AllocError> {
    let mut out = Vec::new(alloc);
    match told {
        Told::Length(len) => put_head(&mut out, 0xa4, *len)?,
        Told::Int(value) => put_int(&mut out, 0x85, *value)?,
        Told::Uint(value) => put_uint(&mut out, 0x86, *value)?,
        Told::BitString(value) if value.len() <= 11 => put_bits(&mut out, 0x84, value)?,
        _ => {}
    }
    Ok(out)
}

fn is_told(alloc: Global, octets: &[u8], told: &Told) -> Result<bool, AllocError> {
    if is_read(octets, told) {
        return Ok(true);
    }
    let out = written(alloc, told)?;
    Ok(!out.is_empty() && out.as_slice() == octets)
}

#[test]
fn octets_are_read_refused_and_written(rt: HostRuntime) -> Result<(), AllocError> {
    for (octets, told) in &ROWS {
        assert!(rt; is_told(rt.alloc(), octets, told)?, "{octets:?}");
    }
    Ok(())
}
