//! Data, read.

ghost use Rattle.std.specs.Prelude.{◌≡◌, List, map};
ghost use Rattle.ber_grammar.specs.Reader.{GivesOrMemory, ReadsOrMemory};
ghost use Rattle.ber_grammar.specs.Rows.{row_at};
ghost use Rattle.ber_view.specs.View.{element};
ghost use Rattle.sv_base.specs.Seen.{seen_of};
ghost use Rattle.mms_data.specs.Grammar.{is_context, IsSpelled, IsDataRefused};
ghost use Rattle.mms_data.specs.Reading.{fault_of, malformed, struct_at, data_at, read_at};

use crate::content::plain_of;
use crate::fault::DataFault;
use crate::tags;
use ber_view::{Tlv, first};
use std::alloc::Global;
use sv_base::{Value, Values};

/// Whether the class of a tag is context-specific (X.690, 8.1.2.2).
pub(crate) fn has_context(tag: u32) -> bool
    ensures { result ≡ is_context tag }
{
    let octet = if tag < 256 {
        tag
    } else if tag < 65536 {
        tag / 256
    } else {
        tag / 65536
    };
    octet / 64 == 2
}

#[cycle(data)]
pub(crate) fn value_of(alloc: Global, depth: u8, part: &Tlv<'_>) -> Result<Value, DataFault>
    ensures { GivesOrMemory fault_of seen_of result (data_at depth (element part.now)) }
{
    if !has_context(part.tag) {
        return Err(DataFault::Tag);
    }
    if depth == 0 {
        return Err(DataFault::Depth);
    }
    if part.tag == tags::STRUCTURE {
        return struct_of(alloc, depth - 1, part.content);
    }
    plain_of(alloc, part)
}

#[cycle(data)]
fn struct_of(alloc: Global, depth: u8, content: &[u8]) -> Result<Value, DataFault>
    ensures { GivesOrMemory fault_of seen_of result (struct_at (data_at depth) content.now) }
{
    let items = parts_of(alloc, depth, content)?;
    Ok(Value::Struct(Values::from_vec(items)))
}

#[cycle(data)]
fn parts_of(alloc: Global, depth: u8, content: &[u8]) -> Result<Vec<Value>, DataFault>
    ensures { GivesOrMemory fault_of (λ v. map seen_of v.items) result
        (row_at (data_at depth) malformed content.now) }
{
    let mut items = Vec::new(alloc);
    let mut rest = content;
    while !rest.is_empty() {
        let (part, after) = match first(rest) {
            Ok(found) => found,
            Err(_) => return Err(DataFault::Length),
        };
        let value = value_of(alloc, depth, &part)?;
        items.push(value)?;
        rest = after;
    }
    Ok(items)
}

#[tactic(auto, unfolding(crate::specs::Reading::read_at))]
fn read_one(alloc: Global, bytes: &[u8]) -> Result<Value, DataFault>
    ensures { GivesOrMemory fault_of seen_of result (read_at bytes.now) }
{
    let (part, rest) = match first(bytes) {
        Ok(found) => found,
        Err(_) => return Err(DataFault::Tag),
    };
    if !rest.is_empty() {
        return Err(DataFault::Tag);
    }
    value_of(alloc, 10, &part)
}

/// The value that `bytes` spell, which are one whole element (ISO 9506-2, Data).
///
/// Lengths may be longer than needed, a boolean is true at any octet but 0, and a number has one to nine octets. An
/// element of the context class under another tag is read whole as `Other`.
///
/// Fails at the first octet at which no value goes on. `Tag` is of an input that is not one whole element, and of an
/// element, a part too, outside the context class; then `Depth` of a value more than ten deep; then `Length` of a
/// content that is not of its kind's form, and of a part that is no whole element. `Memory` is out of memory.
pub fn read_data(alloc: Global, bytes: &[u8]) -> Result<Value, DataFault>
    // A value where the input spells it, else the refusal that the input earns.
    ensures reads { ReadsOrMemory fault_of seen_of result (IsSpelled bytes.now)
        (IsDataRefused bytes.now) }
    ensures exact { GivesOrMemory fault_of seen_of result (read_at bytes.now) }
{
    read_one(alloc, bytes)
}
