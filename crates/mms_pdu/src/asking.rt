//! What a client asks, written (ISO 9506-2, Confirmed-RequestPDU and Conclude-RequestPDU).

ghost use Rattle.std.specs.Prelude.{◌≡◌, ◌≤◌, ◌++◌, IfOk, OnOk};
ghost use Rattle.ber_write.specs.Minimal.{CanBeTag};
ghost use Rattle.sv_base.specs.Depth.{depth, HasNoOther};
ghost use Rattle.sv_base.specs.Seen.{seen_of};
ghost use Rattle.mms_data.specs.Writable.{SeenHasFractions};
ghost use Rattle.mms_pdu.specs.AskingOctets.{AreVisible, one_variable, confirmed_octets};
ghost use Rattle.mms_pdu.specs.AskingOctets.{read_request, write_request, conclude_request};

use ber_write::{add, enclosed, put_uint};
use mms_data::write_data;
use mms_elements::tags;
use std::alloc::{AllocError, Global};
use sv_base::{Octs, Value};

/// The list of one variable, by its domain-specific name.
fn one_variable_of(alloc: Global, domain: &[u8], item: &[u8]) -> Result<Vec<u8>, AllocError>
    ensures { IfOk result (λ v. v.items ≡ one_variable domain.now item.now) }
{
    let mut identifiers = Vec::new(alloc);
    add(&mut identifiers, tags::IDENTIFIER, domain)?;
    add(&mut identifiers, tags::IDENTIFIER, item)?;
    let name = enclosed(alloc, tags::DOMAIN_SPECIFIC, &identifiers)?;
    let specification = enclosed(alloc, tags::NAME, &name)?;
    let variable = enclosed(alloc, tags::VARIABLE, &specification)?;
    enclosed(alloc, tags::LIST_OF_VARIABLE, &variable)
}

/// A confirmed service under its invoke number.
fn confirmed(alloc: Global, invoke: u32, tag: u32, body: &[u8]) -> Result<Octs, AllocError>
    requires { CanBeTag tag }
    ensures { IfOk result (λ o. o ≡ confirmed_octets invoke tag body.now) }
{
    let mut content = Vec::new(alloc);
    put_uint(&mut content, tags::INVOKE_ID, u64::from(invoke))?;
    add(&mut content, tag, body)?;
    Ok(Octs::from_vec(enclosed(alloc, tags::CONFIRMED_REQUEST, &content)?))
}

/// The request to read one variable of a domain (ISO 9506-2, Read-Request), without its specification in the answer.
///
/// The octets of both identifiers are 0x20 to 0x7e.
#[tactic(auto, unfolding(crate::specs::AskingOctets::read_request))]
pub fn write_read_request(
    alloc: Global,
    invoke: u32,
    domain: &[u8],
    item: &[u8],
) -> Result<Octs, AllocError>
    requires domain { AreVisible domain.now }
    requires item { AreVisible item.now }
    ensures { IfOk result (λ o. o ≡ read_request invoke domain.now item.now) }
{
    let variable = one_variable_of(alloc, domain, item)?;
    let access = enclosed(alloc, tags::ACCESS_SPECIFICATION, &variable)?;
    confirmed(alloc, invoke, tags::READ, &access)
}

/// The request to write one variable of a domain (ISO 9506-2, Write-Request).
///
/// The octets of both identifiers are 0x20 to 0x7e. The value has no `Other` in it, is at most ten deep, and a fraction of
/// a second in it is below 2^24.
#[tactic(auto, unfolding(crate::specs::AskingOctets::write_request))]
pub fn write_write_request(
    alloc: Global,
    invoke: u32,
    domain: &[u8],
    item: &[u8],
    value: &Value,
) -> Result<Octs, AllocError>
    requires domain { AreVisible domain.now }
    requires item { AreVisible item.now }
    requires no_other { HasNoOther value.now }
    requires depth { depth value.now ≤ 10 }
    requires fractions { SeenHasFractions (seen_of value.now) }
    ensures { IfOk result (λ o. o ≡ write_request invoke domain.now item.now value.now) }
{
    let mut data = Vec::new(alloc);
    write_data(value, &mut data)?;
    let mut body = one_variable_of(alloc, domain, item)?;
    add(&mut body, tags::LIST_OF_DATA, &data)?;
    confirmed(alloc, invoke, tags::WRITE, &body)
}

/// The request to conclude the association (ISO 9506-2, Conclude-RequestPDU).
pub fn write_conclude_request() -> [u8; 2]
    ensures { result ≡ conclude_request }
{
    [tags::CONCLUDE_REQUEST as u8, 0]
}
