//! Data in place.

ghost use Rattle.std.specs.Prelude.{◌≡◌, ◌==◌, Ok, Err, List, ℕ, IfOk, length, if◌then◌else◌};
ghost use Rattle.ber_grammar.specs.Octets.{IsBytes};
ghost use Rattle.ber_grammar.specs.Place.{Spot};
ghost use Rattle.ber_grammar.specs.Reader.{Reads};
ghost use Rattle.ber_grammar.specs.Rows.{row_at};
ghost use Rattle.ber_view.specs.View.{element, spot};
ghost use Rattle.sv_base.specs.Seen.{seen_of};
ghost use Rattle.mms_data.specs.declared.fault.DataFault.TheVariants.{Length};
ghost use Rattle.mms_data.specs.Grammar.{IsRefusedData};
ghost use Rattle.mms_data.specs.Reading.{malformed, plain_at, data_at};
ghost use Rattle.mms_data.specs.View.{checked, view_at, IsViewed};

use crate::fault::DataFault;
use crate::reading::{has_context, value_of};
use crate::tags;
use ber_view::{Tlv, bits, first, int, text, uint};
use std::alloc::{AllocError, Global};
use std::marker::Model;
use sv_base::Value;

/// One whole element that is Data, at most ten deep, with its content in place: what [`read_data`](crate::read_data)
/// reads for another cause than out of memory.
///
/// It is seen as the element and where its content lies.
#[derive(Debug, Drop)]
pub struct DataView<'a> {
    part: Tlv<'a>,
}

impl<'a> Model for DataView<'a> {
    ghost use Rattle.std.specs.Prelude.{IsOk};
    ghost use Rattle.ber_grammar.specs.Place.{Spot};
    ghost use Rattle.ber_view.specs.View.{element, spot};
    ghost use Rattle.mms_data.specs.Reading.{data_at};

    ghost Value = { Spot };

    ghost view = { λ a. spot a.part };

    ghost invariant = { λ a. IsOk (data_at 10 (element a.part)) };
}

fn sized(content: &[u8], count: usize) -> Result<(), DataFault>
    ensures { result ≡ (if length content.now == count then Ok tt else Err Length) }
{
    if content.len() == count {
        Ok(())
    } else {
        Err(DataFault::Length)
    }
}

/// Whether the content of a value that is no structure is of its kind's form.
#[tactic(auto, unfolding(crate::specs::Reading::plain_at))]
fn check_plain(part: &Tlv<'_>) -> Result<(), DataFault>
    ensures { result ≡ checked (plain_at (element part.now)) }
{
    match part.tag {
        tags::BOOLEAN => sized(part.content, 1),
        tags::BIT_STRING => match bits(part.content) {
            Ok(_) => Ok(()),
            Err(_) => Err(DataFault::Length),
        },
        tags::INTEGER => match int(part.content) {
            Ok(_) => Ok(()),
            Err(_) => Err(DataFault::Length),
        },
        tags::UNSIGNED => match uint(part.content) {
            Ok(_) => Ok(()),
            Err(_) => Err(DataFault::Length),
        },
        tags::VISIBLE_STRING => match text(part.content) {
            Ok(_) => Ok(()),
            Err(_) => Err(DataFault::Length),
        },
        tags::BINARY_TIME => sized(part.content, 6),
        tags::UTC_TIME => sized(part.content, 8),
        _ => Ok(()),
    }
}

#[cycle(check)]
fn check_value(depth: u8, part: &Tlv<'_>) -> Result<(), DataFault>
    ensures { result ≡ checked (data_at depth (element part.now)) }
{
    if !has_context(part.tag) {
        return Err(DataFault::Tag);
    }
    if depth == 0 {
        return Err(DataFault::Depth);
    }
    if part.tag == tags::STRUCTURE {
        return check_parts(depth - 1, part.content);
    }
    check_plain(part)
}

#[cycle(check)]
fn check_parts(depth: u8, content: &[u8]) -> Result<(), DataFault>
    ensures { result ≡ checked (row_at (data_at depth) malformed content.now) }
{
    let mut rest = content;
    while !rest.is_empty() {
        let (part, after) = match first(rest) {
            Ok(found) => found,
            Err(_) => return Err(DataFault::Length),
        };
        if let Err(fault) = check_value(depth, &part) {
            return Err(fault);
        }
        rest = after;
    }
    Ok(())
}

/// A fact of slices, for the proof of a caller whose slice lies in a struct.
fn holds_octets(content: &[u8])
    ensures { IsBytes content.now }
{}

fn checked_view<'a>(part: &Tlv<'a>) -> Result<DataView<'a>, DataFault>
    ensures { result ≡ view_at (spot part.now) }
{
    match check_value(10, part) {
        Ok(()) => Ok(DataView { part: *part }),
        Err(fault) => Err(fault),
    }
}

/// The element as Data (ISO 9506-2, Data), in place.
///
/// Fails as [`read_data`](crate::read_data) fails on the element's octets, and never when out of memory: it takes none.
pub fn view_data<'a>(part: &Tlv<'a>) -> Result<DataView<'a>, DataFault>
    // The element where it is Data, else the refusal that it earns.
    ensures reads { Reads {Y = Spot} (λ d. d) result (IsViewed (spot part.now))
        (IsRefusedData 10 (element part.now)) }
    ensures exact { result ≡ view_at (spot part.now) }
{
    holds_octets(part.content);
    checked_view(part)
}

impl<'a> DataView<'a> {
    /// The value that the element is.
    pub fn value(&self, alloc: Global) -> Result<Value, AllocError>
        ensures { IfOk result (λ v. data_at 10 self.now.element ≡ Ok (seen_of v)) }
    {
        match value_of(alloc, 10, &self.part) {
            Ok(value) => Ok(value),
            Err(DataFault::Memory) => Err(AllocError),
            Err(_) => unreachable!(),
        }
    }
}
