//! Elements of a response, and the PDU round them (ISO 9506-2, Confirmed-ResponsePDU).

ghost use Rattle.std.specs.Prelude.{◌≡◌, ◌+◌, ◌<◌, ◌≤◌, ◌^◌, ◌++◌, length, OnOk, IfOk};
ghost use Rattle.std.specs.Option.{option_map};
ghost use Rattle.ber_write.specs.Minimal.{octets_of, CanBeTag, element_size};
ghost use Rattle.report_cut.specs.Fields.{truth};
ghost use Rattle.bay_answers.specs.Replies.{response as response_of};
ghost use Rattle.bay_answers.specs.RepliesSizes.{service_size, begun};

use bay_model::service_errors;
use ber_write::{length_of, put, put_head, put_uint, uint_len};
use mms_elements::tags;
use mms_pdu::write_error;
use std::alloc::{AllocError, Global};
use sv_base::Octs;

/// Adds a boolean.
pub(crate) fn add_truth(out: &mut Vec<u8>, tag: u32, value: bool) -> Result<(), AllocError>
    requires { CanBeTag tag }
    ensures { OnOk result (out.new.items ≡ out.old.items ++ octets_of tag (truth value)) }
{
    put(out, tag, &[if value { 0xff } else { 0 }])
}

/// How many octets an element has whose content has that many.
#[tactic(auto, unfolding(ber_write::specs::Minimal::element_size), using(ber_write::proofs::LengthLaws::at_most_five))]
pub(crate) fn element_len(n: u32) -> u32
    requires { n < 2 ^ 24 }
    ensures value { result ≡ element_size n }
    ensures few { result ≤ n + 6 }
{
    1 + length_of(n) + n
}

/// How many octets the invoke number and a service's element have whose content has that many.
#[tactic(auto, unfolding(crate::specs::RepliesSizes::service_size))]
pub(crate) fn service_len(invoke: u32, n: u32) -> u32
    requires { n < 2 ^ 20 }
    ensures value { result ≡ service_size invoke n }
    ensures few { result ≤ n + 21 }
{
    element_len(uint_len(u64::from(invoke))) + element_len(n)
}

/// What stands in the PDU of a response before the content, of `n` octets, of the service's element with this tag, and memory
/// for the whole PDU; none where that is longer than the size.
#[tactic(auto, using(crate::proofs::RepliesSizeLaws::holds_too_much, crate::proofs::RepliesSizeLaws::is_too_long, crate::proofs::RepliesSizeLaws::fits))]
pub(crate) fn begin(
    alloc: Global,
    size: u32,
    invoke: u32,
    tag: u32,
    n: usize,
) -> Result<Option<Vec<u8>>, AllocError>
    requires tag { CanBeTag tag }
    requires most { size ≤ 65000 }
    ensures { IfOk result (λ o. option_map (λ v. v.items) o ≡ begun size invoke tag n) }
{
    if n > size as usize {
        return Ok(None);
    }
    let len = service_len(invoke, n as u32);
    if element_len(len) > size {
        return Ok(None);
    }
    let mut out = Vec::with_capacity(alloc, element_len(len) as usize)?;
    put_head(&mut out, tags::CONFIRMED_RESPONSE, len)?;
    put_uint(&mut out, tags::INVOKE_ID, u64::from(invoke))?;
    put_head(&mut out, tag, n as u32)?;
    Ok(Some(out))
}

/// The response of the service with this tag; the error service, pdu-size, where that is longer than the size.
#[tactic(auto, using(crate::proofs::RepliesSizeLaws::is_answered, crate::proofs::RepliesSizeLaws::is_refused))]
pub(crate) fn respond(
    alloc: Global,
    size: u32,
    invoke: u32,
    tag: u32,
    content: &[u8],
) -> Result<Octs, AllocError>
    requires tag { CanBeTag tag }
    requires one_octet { tag < 256 }
    requires most { size ≤ 65000 }
    ensures { IfOk result (λ o. o ≡ response_of size invoke tag content.now) }
{
    match begin(alloc, size, invoke, tag, content.len())? {
        Some(mut out) => {
            out.extend_from_slice(content)?;
            Ok(Octs::from_vec(out))
        }
        None => write_error(
            alloc,
            invoke,
            service_errors::SERVICE,
            service_errors::PDU_SIZE,
        ),
    }
}
