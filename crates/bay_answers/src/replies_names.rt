//! Names, as many as fit (ISO 9506-2, GetNameList-Response).

ghost use Rattle.std.specs.Prelude.{◌≡◌, ◌+◌, ◌<◌, ◌≤◌, ◌++◌, length, take, OnOk, IfOk};
ghost use Rattle.ber_write.specs.Minimal.{element_size};
ghost use Rattle.bay_answers.specs.RepliesContents.{identifiers};
ghost use Rattle.bay_answers.specs.RepliesSizes.{names_size, with_one};
ghost use Rattle.bay_answers.specs.Replies.{shown, names_response};

use crate::replies_elements::{add_truth, element_len, respond, service_len};
use crate::tags;
use ber_write::{add, put_head};
use mms_elements::tags as pdu_tags;
use std::alloc::{AllocError, Global};
use sv_base::Octs;

/// How many octets the PDU has whose identifiers have that many.
#[tactic(auto, unfolding(crate::specs::RepliesSizes::names_size))]
fn names_len(invoke: u32, n: u32) -> u32
    requires { n ≤ 131072 }
    ensures { result ≡ names_size invoke n }
{
    element_len(service_len(invoke, element_len(n) + 3))
}

/// How many octets the identifiers have with one more name, where that fits.
#[tactic(auto, using(crate::proofs::RepliesNamesLaws::long_name))]
fn with_name(size: u32, invoke: u32, sum: u32, name: &[u8]) -> Option<u32>
    requires most { size ≤ 65000 }
    requires sum { sum ≤ 65000 }
    ensures { result ≡ with_one size invoke sum name.now }
{
    if name.len() > size as usize {
        return None;
    }
    let more = sum + element_len(name.len() as u32);
    if names_len(invoke, more) > size {
        return None;
    }
    Some(more)
}

/// How many of the names fit, and how many octets their identifiers have.
fn fitting_names(size: u32, invoke: u32, names: &[Octs]) -> (usize, u32)
    requires most { size ≤ 65000 }
    ensures most { result.0 ≤ length names.now }
    ensures value { take result.0 names.now ≡ shown size invoke names.now }
    ensures sum { result.1 ≡ length (identifiers (take result.0 names.now)) }
{
    let mut count = 0;
    let mut sum = 0;
    while count < names.len() {
        match with_name(size, invoke, sum, names[count].as_slice()) {
            Some(more) => {
                sum = more;
                count += 1;
            }
            None => return (count, sum),
        }
    }
    (count, sum)
}

fn add_identifiers(out: &mut Vec<u8>, names: &[Octs]) -> Result<(), AllocError>
    ensures { OnOk result (out.new.items ≡ out.old.items ++ identifiers names.now) }
{
    for name in names {
        add(out, pdu_tags::IDENTIFIER, name.as_slice())?;
    }
    Ok(())
}

/// The response of GetNameList.
#[tactic(auto, unfolding(crate::specs::RepliesContents::names_content), using(crate::proofs::RepliesNamesLaws::answers))]
pub(crate) fn names(
    alloc: Global,
    size: u32,
    invoke: u32,
    names: &[Octs],
) -> Result<Octs, AllocError>
    requires least { 1024 ≤ size }
    requires most { size ≤ 65000 }
    ensures { IfOk result (λ o. o ≡ names_response size invoke names.now) }
{
    let (count, sum) = fitting_names(size, invoke, names);
    let mut content = Vec::new(alloc);
    put_head(&mut content, tags::LIST_OF_IDENTIFIER, sum)?;
    add_identifiers(&mut content, &names[..count])?;
    add_truth(&mut content, tags::MORE_FOLLOWS, count < names.len())?;
    respond(
        alloc,
        size,
        invoke,
        pdu_tags::GET_NAME_LIST,
        content.as_slice(),
    )
}
