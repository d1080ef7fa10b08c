//! The contents of Data that are no structure, read.

ghost use Rattle.std.specs.Prelude.{◌≡◌, ◌≤◌, ◌<◌, ◌^◌, List, length, IfOk};
ghost use Rattle.ber_grammar.specs.Octets.{big_endian};
ghost use Rattle.ber_grammar.specs.Reader.{Gives, GivesOrMemory};
ghost use Rattle.ber_view.specs.View.{element};
ghost use Rattle.sv_base.specs.Seen.{seen_of};
ghost use Rattle.mms_data.specs.Reading.{fault_of, truth_at, bit_string_at, integer_at};
ghost use Rattle.mms_data.specs.Reading.{unsigned_at, string_at, stamp_at, time_at, plain_at};

use crate::fault::DataFault;
use crate::tags;
use ber_view::{BitView, Tlv, bits, int, text, uint};
use std::alloc::{AllocError, Global};
use sv_base::{Bits, Octs, Stamp, Utc, Value};

/// A boolean (X.690, 8.2): any octet but 0 is true.
fn boolean_of(content: &[u8]) -> Result<Value, DataFault>
    ensures { Gives seen_of result (truth_at content.now) }
{
    match content {
        [octet] => Ok(Value::Bool(*octet != 0)),
        _ => Err(DataFault::Length),
    }
}

fn integer_of(content: &[u8]) -> Result<Value, DataFault>
    ensures { Gives seen_of result (integer_at content.now) }
{
    match int(content) {
        Ok(value) => Ok(Value::Int(value)),
        Err(_) => Err(DataFault::Length),
    }
}

fn unsigned_of(content: &[u8]) -> Result<Value, DataFault>
    ensures { Gives seen_of result (unsigned_at content.now) }
{
    match uint(content) {
        Ok(value) => Ok(Value::Uint(value)),
        Err(_) => Err(DataFault::Length),
    }
}

/// At most four octets as one number, the first the highest.
fn number_of(octets: &[u8]) -> u32
    requires { length octets.now ≤ 4 }
    ensures { result ≡ big_endian octets.now }
{
    let mut n = 0u32;
    for octet in octets {
        n = n * 256 + u32::from(*octet);
    }
    n
}

/// Two octets as one number, the first the highest.
fn pair_of(octets: &[u8]) -> u16
    requires { length octets.now ≡ 2 }
    ensures { result ≡ big_endian octets.now }
{
    u16::from(octets[0]) * 256 + u16::from(octets[1])
}

/// A binary time of six octets (ISO 9506-2, TimeOfDay).
fn stamp_of(content: &[u8]) -> Result<Value, DataFault>
    ensures { Gives seen_of result (stamp_at content.now) }
{
    if content.len() != 6 {
        return Err(DataFault::Length);
    }
    Ok(Value::Stamp(Stamp {
        ms: number_of(&content[..4]),
        days: pair_of(&content[4..]),
    }))
}

/// A UTC time of eight octets (ISO 9506-2, UtcTime).
fn time_of(content: &[u8]) -> Result<Value, DataFault>
    ensures { Gives seen_of result (time_at content.now) }
{
    if content.len() != 8 {
        return Err(DataFault::Length);
    }
    Ok(Value::Time(Utc {
        secs: number_of(&content[..4]),
        frac: number_of(&content[4..7]),
        quality: content[7],
    }))
}

/// The bits of a view, on the heap.
pub fn all_bits(alloc: Global, view: &BitView<'_>) -> Result<Vec<bool>, AllocError>
    ensures { IfOk result (λ all. all.items ≡ view.now) }
{
    let mut all = Vec::new(alloc);
    while let Some(bit) = view.get(all.len()) {
        all.push(bit)?;
    }
    Ok(all)
}

fn bit_string_of(alloc: Global, content: &[u8]) -> Result<Value, DataFault>
    ensures { GivesOrMemory fault_of seen_of result (bit_string_at content.now) }
{
    match bits(content) {
        Ok(view) => {
            let all = all_bits(alloc, &view)?;
            Ok(Value::Bits(Bits::from_vec(all)))
        }
        Err(_) => Err(DataFault::Length),
    }
}

fn string_of(alloc: Global, content: &[u8]) -> Result<Value, DataFault>
    ensures { GivesOrMemory fault_of seen_of result (string_at content.now) }
{
    match text(content) {
        Ok(octets) => {
            let octets = Vec::from_slice(alloc, octets)?;
            Ok(Value::Text(Octs::from_vec(octets)))
        }
        Err(_) => Err(DataFault::Length),
    }
}

/// A value that is no structure: the content by the tag's kind, and `Other` under every other tag.
#[tactic(auto, unfolding(crate::specs::Reading::plain_at))]
pub(crate) fn plain_of(alloc: Global, part: &Tlv<'_>) -> Result<Value, DataFault>
    ensures { GivesOrMemory fault_of seen_of result (plain_at (element part.now)) }
{
    match part.tag {
        tags::BOOLEAN => boolean_of(part.content),
        tags::BIT_STRING => bit_string_of(alloc, part.content),
        tags::INTEGER => integer_of(part.content),
        tags::UNSIGNED => unsigned_of(part.content),
        tags::OCTET_STRING => {
            let octets = Vec::from_slice(alloc, part.content)?;
            Ok(Value::Octets(Octs::from_vec(octets)))
        }
        tags::VISIBLE_STRING => string_of(alloc, part.content),
        tags::BINARY_TIME => stamp_of(part.content),
        tags::UTC_TIME => time_of(part.content),
        _ => Ok(Value::Other),
    }
}
