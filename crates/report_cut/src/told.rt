//! The members that a PDU of a report says, read (IEC 61850-8-1, mapping of the Report service).

ghost use Rattle.std.specs.Prelude.{◌≡◌, ◌+◌, ◌≤◌, ◌<◌, [], List, length, IfOk, IfSome};
ghost use Rattle.std.specs.Prelude.{if◌then◌else◌, Some};
ghost use Rattle.std.specs.Option.{option_map};
ghost use Rattle.ber_grammar.specs.Element.{Element};
ghost use Rattle.ber_grammar.specs.Reader.{GivesOrMemory};
ghost use Rattle.ber_grammar.specs.Steps.{required};
ghost use Rattle.ber_view.specs.View.{element};
ghost use Rattle.report_cut.specs.declared.fault.ReportFault.TheVariants.{Invalid};
ghost use Rattle.report_cut.specs.PartReading.{fault_of, is_data as is_data_of, data_in};
ghost use Rattle.report_cut.specs.PartReading.{behind_each, member_at, members_at, body_at};

use crate::fault::ReportFault;
use crate::taking::{take_inclusion, take_reasons, take_text};
use bay_model::{Member, Members};
use ber_view::{Tlv, first};
use mms_data::{all_bits, view_data};
use std::alloc::{AllocError, Global};
use sv_base::{MemberNo, Octs};

fn is_data(part: &Tlv<'_>) -> bool
    ensures { result ≡ is_data_of (element part.now) }
{
    match view_data(part) {
        Ok(_) => true,
        Err(_) => false,
    }
}

/// The octets of one Data in front, and what follows.
#[tactic(auto, unfolding(crate::specs::PartReading::data_in))]
fn data_of(octets: &[u8]) -> Option<(&[u8], &[u8])>
    ensures { option_map (λ x. (x.0.now, x.1.now)) result ≡ data_in octets.now }
{
    let (part, rest) = first(octets).ok()?;
    if !is_data(&part) {
        return None;
    }
    Some((&octets[..octets.len() - rest.len()], rest))
}

/// What follows as many elements as bits are set.
fn behind<'a>(bits: &[bool], octets: &'a [u8]) -> Option<&'a [u8]>
    ensures { option_map (λ x. x.now) result ≡ behind_each bits.now octets.now }
{
    match bits {
        [] => Some(octets),
        [false, others @ ..] => behind(others, octets),
        [true, others @ ..] => {
            let (_, rest) = first(octets).ok()?;
            behind(others, rest)
        }
    }
}

/// Where the references, the Data and the reasons of the members that are left begin.
#[derive(Clone, Copy)]
struct Places<'a> {
    references: &'a [u8],
    values: &'a [u8],
    reasons: &'a [u8],
}

/// The member with a number, and the places after it.
#[tactic(auto, unfolding(crate::specs::PartReading::member_at))]
fn read_member<'a>(
    alloc: Global,
    referred: bool,
    reasoned: bool,
    number: u32,
    places: Places<'a>,
) -> Result<(Member, Places<'a>), ReportFault>
    ensures { GivesOrMemory fault_of
        (λ x. (x.0, x.1.references.now, x.1.values.now, x.1.reasons.now)) result
        (required Invalid (member_at referred reasoned number places.entry.references.now
        places.entry.values.now places.entry.reasons.now)) }
{
    let Some((reference, references)) = take_text(referred, places.references) else {
        return Err(ReportFault::Invalid);
    };
    let Some((octets, values)) = data_of(places.values) else {
        return Err(ReportFault::Invalid);
    };
    let Some((why, reasons)) = take_reasons(reasoned, places.reasons) else {
        return Err(ReportFault::Invalid);
    };
    let member = Member {
        number: MemberNo(number),
        reference: Octs::copied(alloc, reference)?,
        octets: Octs::copied(alloc, octets)?,
        reasons: why,
    };
    Ok((
        member,
        Places {
            references,
            values,
            reasons,
        },
    ))
}

/// The members after those so far, one for each bit that is set.
fn read_members(
    alloc: Global,
    referred: bool,
    reasoned: bool,
    number: u32,
    bits: &[bool],
    places: Places<'_>,
    so_far: Vec<Member>,
) -> Result<Vec<Member>, ReportFault>
    requires { number + length bits.now < 1000 }
    ensures { GivesOrMemory fault_of (λ v. v.items) result
        (required Invalid (members_at referred reasoned number bits.now places.entry.references.now
        places.entry.values.now
        places.entry.reasons.now so_far.items)) }
{
    match bits {
        [] => {
            if !places.reasons.is_empty() {
                return Err(ReportFault::Invalid);
            }
            Ok(so_far)
        }
        [false, others @ ..] => read_members(
            alloc,
            referred,
            reasoned,
            number + 1,
            others,
            places,
            so_far,
        ),
        [true, others @ ..] => {
            let (member, rest) = read_member(alloc, referred, reasoned, number, places)?;
            let mut members = so_far;
            members.push(member)?;
            read_members(alloc, referred, reasoned, number + 1, others, rest, members)
        }
    }
}

fn behind_if<'a>(asked: bool, bits: &[bool], octets: &'a [u8]) -> Option<&'a [u8]>
    ensures { option_map (λ x. x.now) result ≡ (if asked then behind_each bits.now octets.now
        else Some octets.now) }
{
    if !asked {
        return Some(octets);
    }
    behind(bits, octets)
}

/// How many members the data set has, and those that the PDU says.
#[tactic(auto, unfolding(crate::specs::PartReading::body_at))]
pub(crate) fn read_body(
    alloc: Global,
    referred: bool,
    reasoned: bool,
    octets: &[u8],
) -> Result<(u32, Members), ReportFault>
    ensures { GivesOrMemory fault_of (λ x. (x.0, x.1)) result
        (required Invalid (body_at referred reasoned octets.now)) }
{
    let Some((view, references)) = take_inclusion(octets) else {
        return Err(ReportFault::Invalid);
    };
    let bits = all_bits(alloc, &view)?;
    let Some(values) = behind_if(referred, &bits, references) else {
        return Err(ReportFault::Invalid);
    };
    let Some(reasons) = behind(&bits, values) else {
        return Err(ReportFault::Invalid);
    };
    let places = Places {
        references,
        values,
        reasons,
    };
    let members = read_members(alloc, referred, reasoned, 1, &bits, places, Vec::new(alloc))?;
    Ok((bits.len() as u32, Members::from_vec(members)))
}
