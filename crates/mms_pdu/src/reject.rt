//! A reject, written (ISO 9506-2, RejectPDU).

ghost use Rattle.std.specs.Prelude.{◌≡◌, ◌++◌, IfOk, OnOk};
ghost use Rattle.ber_write.specs.Minimal.{octets_of, uint_octets, CanBeTag};
ghost use Rattle.mms_pdu.specs.ReplyOctets.{invoke_octets, reason_tag, reason_code, reject_octets};
ghost use Rattle.mms_pdu.specs.ReplyOctets.{CanBeRejected};

use crate::reject_reasons;
use ber_write::{enclosed, put_uint};
use mms_elements::tags;
use std::alloc::{AllocError, Global};
use sv_base::{Octs, rejections};

fn put_invoke(out: &mut Vec<u8>, invoke: Option<u32>) -> Result<(), AllocError>
    ensures { OnOk result (out.new.items ≡ out.old.items ++ invoke_octets invoke) }
{
    match invoke {
        Some(number) => put_uint(out, tags::ORIGINAL_INVOKE_ID, u64::from(number)),
        None => Ok(()),
    }
}

fn put_code(out: &mut Vec<u8>, tag: u32, code: u8) -> Result<(), AllocError>
    requires { CanBeTag tag }
    ensures { OnOk result (out.new.items ≡ out.old.items ++ octets_of tag (uint_octets code)) }
{
    put_uint(out, tag, u64::from(code))
}

/// Adds the reason that stands for a refusal.
fn put_reason(out: &mut Vec<u8>, refusal: u8) -> Result<(), AllocError>
    ensures { OnOk result (out.new.items ≡ out.old.items ++ octets_of (reason_tag refusal)
        (uint_octets (reason_code refusal))) }
{
    match refusal {
        rejections::UNKNOWN_PDU => put_code(
            out,
            tags::PDU_REJECTED,
            reject_reasons::UNKNOWN_PDU_TYPE,
        ),
        rejections::UNKNOWN_SERVICE => put_code(
            out,
            tags::REQUEST_REJECTED,
            reject_reasons::UNRECOGNIZED_SERVICE,
        ),
        rejections::INVALID_ARGUMENT => put_code(
            out,
            tags::REQUEST_REJECTED,
            reject_reasons::INVALID_ARGUMENT,
        ),
        _ => put_code(out, tags::PDU_REJECTED, reject_reasons::INVALID_PDU),
    }
}

/// A reject (ISO 9506-2, RejectPDU, tag A4) for a refusal by its number ([`sv_base::rejections`]). The invoke number is
/// that of the request, for an unknown service and for an argument; the others have none.
#[tactic(auto, unfolding(crate::specs::ReplyOctets::reject_octets))]
pub fn write_reject(alloc: Global, invoke: Option<u32>, refusal: u8) -> Result<Octs, AllocError>
    requires { CanBeRejected invoke refusal }
    ensures { IfOk result (λ o. o ≡ reject_octets invoke refusal) }
{
    let mut content = Vec::new(alloc);
    put_invoke(&mut content, invoke)?;
    put_reason(&mut content, refusal)?;
    Ok(Octs::from_vec(enclosed(alloc, tags::REJECT, &content)?))
}
