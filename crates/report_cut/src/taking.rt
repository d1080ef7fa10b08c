//! Fields in front of octets, taken where OptFlds asks for them (IEC 61850-8-1, mapping of the Report service).

ghost use Rattle.std.specs.Prelude.{◌≡◌, ◌≤◌, [], List, true, false, ◌^◌, length, IfSome};
ghost use Rattle.std.specs.Option.{option_map};
ghost use Rattle.mms_elements.specs.Invoke.{below_at};
ghost use Rattle.mms_data.specs.declared.tags.TheConstants.{BINARY_TIME, BIT_STRING, BOOLEAN};
ghost use Rattle.mms_data.specs.declared.tags.TheConstants.{OCTET_STRING, UNSIGNED, VISIBLE_STRING};
ghost use Rattle.report_cut.specs.Part.{no_reasons};
ghost use Rattle.report_cut.specs.PartReading.{enclosed_at, field_at, taken_at, text_in, truth_in};
ghost use Rattle.report_cut.specs.PartReading.{moment_in, id_in, options_in, inclusion_in};
ghost use Rattle.report_cut.specs.PartReading.{reasons_in};

use crate::contents::{
    id_of, inclusion_of, number_of, options_of, reasons_of, short_of, text_of, time_of, truth_of,
};
use bay_model::Reasons;
use ber_view::{BitView, first, whole};
use mms_data::tags;
use sv_base::Moment;

/// The content of the one element that the octets are, which has this tag.
#[tactic(auto, unfolding(crate::specs::PartReading::enclosed_at))]
pub(crate) fn enclosed(tag: u32, octets: &[u8]) -> Option<&[u8]>
    ensures { option_map (λ x. x.now) result ≡ enclosed_at tag octets.now }
{
    let element = whole(octets)?;
    if element.tag != tag {
        return None;
    }
    Some(element.content)
}

/// The content of the element in front, which has this tag, if it is asked for, and what follows.
#[tactic(auto, unfolding(crate::specs::PartReading::field_at))]
pub(crate) fn field(tag: u32, asked: bool, octets: &[u8]) -> Option<(Option<&[u8]>, &[u8])>
    ensures { option_map (λ x. (option_map (λ c. c.now) x.0, x.1.now)) result
        ≡ field_at tag asked octets.now }
{
    if !asked {
        return Some((None, octets));
    }
    let (element, rest) = first(octets).ok()?;
    if element.tag != tag {
        return None;
    }
    Some((Some(element.content), rest))
}

/// A visible string; else it is empty.
#[tactic(auto, unfolding(crate::specs::PartReading::taken_at))]
pub(crate) fn take_text(asked: bool, octets: &[u8]) -> Option<(&[u8], &[u8])>
    ensures { option_map (λ x. (x.0.now, x.1.now)) result
        ≡ taken_at VISIBLE_STRING text_in asked [] octets.now }
{
    let (content, rest) = field(tags::VISIBLE_STRING, asked, octets)?;
    match content {
        None => Some((&[], rest)),
        Some(content) => Some((text_of(content)?, rest)),
    }
}

/// A boolean; else it is false.
#[tactic(auto, unfolding(crate::specs::PartReading::taken_at))]
pub(crate) fn take_truth(asked: bool, octets: &[u8]) -> Option<(bool, &[u8])>
    ensures { option_map (λ x. (x.0, x.1.now)) result
        ≡ taken_at BOOLEAN truth_in asked false octets.now }
{
    let (content, rest) = field(tags::BOOLEAN, asked, octets)?;
    match content {
        None => Some((false, rest)),
        Some(content) => Some((truth_of(content)?, rest)),
    }
}

/// A number of 16 bits; else it is 0.
#[tactic(auto, unfolding(crate::specs::PartReading::taken_at))]
pub(crate) fn take_short(asked: bool, octets: &[u8]) -> Option<(u16, &[u8])>
    ensures { option_map (λ x. (x.0, x.1.now)) result ≡ taken_at UNSIGNED
        (below_at 65536) asked 0 octets.now }
{
    let (content, rest) = field(tags::UNSIGNED, asked, octets)?;
    match content {
        None => Some((0, rest)),
        Some(content) => Some((short_of(content)?, rest)),
    }
}

/// A number of 32 bits; else it is 0.
#[tactic(auto, unfolding(crate::specs::PartReading::taken_at))]
pub(crate) fn take_number(asked: bool, octets: &[u8]) -> Option<(u32, &[u8])>
    ensures { option_map (λ x. (x.0, x.1.now)) result ≡ taken_at UNSIGNED
        (below_at (2 ^ 32)) asked 0 octets.now }
{
    let (content, rest) = field(tags::UNSIGNED, asked, octets)?;
    match content {
        None => Some((0, rest)),
        Some(content) => Some((number_of(content)?, rest)),
    }
}

/// A binary time of a moment; else it is the least.
#[tactic(auto, unfolding(crate::specs::PartReading::taken_at))]
pub(crate) fn take_time(asked: bool, octets: &[u8]) -> Option<(Moment, &[u8])>
    ensures { option_map (λ x. (x.0, x.1.now)) result
        ≡ taken_at BINARY_TIME moment_in asked 441763200000 octets.now }
{
    let (content, rest) = field(tags::BINARY_TIME, asked, octets)?;
    match content {
        None => Some((Moment::first(), rest)),
        Some(content) => Some((time_of(content)?, rest)),
    }
}

/// An EntryID; else it is 0.
#[tactic(auto, unfolding(crate::specs::PartReading::taken_at))]
pub(crate) fn take_id(asked: bool, octets: &[u8]) -> Option<(u64, &[u8])>
    ensures { option_map (λ x. (x.0, x.1.now)) result
        ≡ taken_at OCTET_STRING id_in asked 0 octets.now }
{
    let (content, rest) = field(tags::OCTET_STRING, asked, octets)?;
    match content {
        None => Some((0, rest)),
        Some(content) => Some((id_of(content)?, rest)),
    }
}

const NO_REASON: Reasons = Reasons {
    dchg: false,
    qchg: false,
    dupd: false,
    intg: false,
    gi: false,
};

/// ReasonForInclusion; else there is none.
#[tactic(auto, unfolding(crate::specs::PartReading::taken_at))]
pub(crate) fn take_reasons(asked: bool, octets: &[u8]) -> Option<(Reasons, &[u8])>
    ensures { option_map (λ x. (x.0, x.1.now)) result
        ≡ taken_at BIT_STRING reasons_in asked no_reasons octets.now }
{
    let (content, rest) = field(tags::BIT_STRING, asked, octets)?;
    match content {
        None => Some((NO_REASON, rest)),
        Some(content) => Some((reasons_of(content)?, rest)),
    }
}

/// OptFlds.
#[tactic(auto, unfolding(crate::specs::PartReading::taken_at, crate::specs::PartReading::field_at))]
pub(crate) fn take_options(octets: &[u8]) -> Option<(BitView<'_>, &[u8])>
    ensures { option_map (λ x. (x.0, x.1.now)) result
        ≡ taken_at BIT_STRING options_in true [] octets.now }
{
    let (element, rest) = first(octets).ok()?;
    if element.tag != tags::BIT_STRING {
        return None;
    }
    Some((options_of(element.content)?, rest))
}

/// The inclusion bits.
#[tactic(auto, unfolding(crate::specs::PartReading::taken_at, crate::specs::PartReading::field_at))]
pub(crate) fn take_inclusion(octets: &[u8]) -> Option<(BitView<'_>, &[u8])>
    ensures value { option_map (λ x. (x.0, x.1.now)) result
        ≡ taken_at BIT_STRING inclusion_in true [] octets.now }
    ensures few { IfSome result (λ x. length x.0 ≤ 256) }
{
    let (element, rest) = first(octets).ok()?;
    if element.tag != tags::BIT_STRING {
        return None;
    }
    Some((inclusion_of(element.content)?, rest))
}
