//! How an association begins, written.

ghost use Rattle.std.specs.Prelude.{◌≡◌, ◌≤◌, min, max, IfOk};
ghost use Rattle.ber_write.specs.Minimal.{octets_of, CanBeTag};
ghost use Rattle.mms_initiate.specs.InitiateOctets.{initiate_content, answer_details};
ghost use Rattle.mms_initiate.specs.InitiateOctets.{request_details, accepted, proposed};
ghost use Rattle.mms_initiate.specs.InitiateOctets.{initiate_answer, initiate_request};

use crate::initiate::Initiate;
use ber_write::{add, enclosed, put_uint};
use mms_elements::tags;
use std::alloc::{AllocError, Global};
use sv_base::Octs;

/// Version 1, the parameters, and the services that a client names.
const REQUEST_DETAILS: [u8; 22] = [
    0x80, 1, 1, 0x81, 3, 5, 0xf1, 0, 0x82, 12, 3, 0xee, 0x1c, 0, 0, 4, 8, 0, 0, 0x79, 0xef, 0x18,
];

/// Version 1, the parameters, and the services that this server has.
const ANSWER_DETAILS: [u8; 22] = [
    0x80, 1, 1, 0x81, 3, 5, 0xf1, 0, 0x82, 12, 3, 0xee, 0x1c, 0, 0, 0, 0, 0, 0, 0, 1, 0x10,
];

/// The fields of an initiate, each in its minimal spelling.
fn content_of(alloc: Global, numbers: &Initiate, details: &[u8]) -> Result<Vec<u8>, AllocError>
    ensures { IfOk result (λ v. v.items ≡ initiate_content numbers.now details.now) }
{
    let mut out = Vec::new(alloc);
    put_uint(&mut out, tags::LOCAL_DETAIL, u64::from(numbers.size))?;
    put_uint(
        &mut out,
        tags::OUTSTANDING_CALLING,
        u64::from(numbers.calling),
    )?;
    put_uint(
        &mut out,
        tags::OUTSTANDING_CALLED,
        u64::from(numbers.called),
    )?;
    put_uint(&mut out, tags::NESTING_LEVEL, u64::from(numbers.nesting))?;
    add(&mut out, tags::INIT_DETAIL, details)?;
    Ok(out)
}

fn write_initiate(
    alloc: Global,
    tag: u32,
    numbers: &Initiate,
    details: &[u8],
) -> Result<Octs, AllocError>
    requires { CanBeTag tag }
    ensures { IfOk result (λ o. o ≡ octets_of tag (initiate_content numbers.now details.now)) }
{
    let content = content_of(alloc, numbers, details)?;
    Ok(Octs::from_vec(enclosed(alloc, tag, &content)?))
}

/// The lesser of what is asked and of `most`, and at least 1.
fn limited(asked: u32, most: u32) -> u32
    ensures { result ≡ max 1 (min asked most) }
{
    asked.min(most).max(1)
}

fn accepted_of(asked: &Initiate) -> Initiate
    ensures { result ≡ accepted asked.now }
{
    Initiate {
        size: asked.size.min(65000),
        calling: limited(asked.calling, 16),
        called: limited(asked.called, 16),
        nesting: limited(asked.nesting, 10),
    }
}

/// The answer to an initiate (ISO 9506-2, Initiate-ResponsePDU, tag A9): the lesser of the size asked and 65000 octets, of
/// the outstanding calls each way and 16, and of the nesting and 10, of these at least 1, and the version, parameters and
/// services of this server.
#[tactic(auto, unfolding(crate::specs::InitiateOctets::initiate_answer))]
pub fn write_initiate_answer(alloc: Global, asked: &Initiate) -> Result<Octs, AllocError>
    requires { 1024 ≤ asked.now.size }
    ensures { IfOk result (λ o. o ≡ initiate_answer asked.now) }
{
    write_initiate(
        alloc,
        tags::INITIATE_RESPONSE,
        &accepted_of(asked),
        &ANSWER_DETAILS,
    )
}

/// The initiate that asks for PDUs of at most `size` octets (ISO 9506-2, Initiate-RequestPDU, tag A8), five outstanding
/// calls each way and a nesting of 10.
#[tactic(auto, unfolding(crate::specs::InitiateOctets::initiate_request))]
pub fn write_initiate_request(alloc: Global, size: u32) -> Result<Octs, AllocError>
    requires least { 1024 ≤ size }
    requires most { size ≤ 65000 }
    ensures { IfOk result (λ o. o ≡ initiate_request size) }
{
    let numbers = Initiate {
        size,
        calling: 5,
        called: 5,
        nesting: 10,
    };
    write_initiate(alloc, tags::INITIATE_REQUEST, &numbers, &REQUEST_DETAILS)
}
