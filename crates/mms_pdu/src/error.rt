//! An error, written (ISO 9506-2, Confirmed-ErrorPDU).

ghost use Rattle.std.specs.Prelude.{◌≡◌, ◌<◌, IfOk};
ghost use Rattle.ber_write.specs.Minimal.{CanBeTag};
ghost use Rattle.mms_pdu.specs.ReplyOctets.{class_tag, error_octets};

use ber_write::{add, enclosed, put_uint};
use mms_elements::tags;
use std::alloc::{AllocError, Global};
use sv_base::Octs;

/// The tag of the context class with this number.
fn tag_of(class: u8) -> u32
    ensures value { result ≡ class_tag class }
    ensures tag { CanBeTag result }
{
    let number = u32::from(class);
    if number < 31 {
        return 0x80 + number;
    }
    if number < 128 {
        return 0x9f00 + number;
    }
    0x9f8100 + (number - 128)
}

/// An error that answers a request (ISO 9506-2, Confirmed-ErrorPDU, tag A2): the invoke number, and a ServiceError with
/// the error class of this number and this code, and nothing more.
#[tactic(auto, unfolding(crate::specs::ReplyOctets::error_octets))]
pub fn write_error(alloc: Global, invoke: u32, class: u8, code: u8) -> Result<Octs, AllocError>
    ensures { IfOk result (λ o. o ≡ error_octets invoke class code) }
{
    let mut error = Vec::new(alloc);
    put_uint(&mut error, tag_of(class), u64::from(code))?;
    let class_field = enclosed(alloc, tags::ERROR_CLASS, &error)?;
    let mut content = Vec::new(alloc);
    put_uint(&mut content, tags::ORIGINAL_INVOKE_ID, u64::from(invoke))?;
    add(&mut content, tags::SERVICE_ERROR, &class_field)?;
    Ok(Octs::from_vec(enclosed(alloc, tags::CONFIRMED_ERROR, &content)?))
}
