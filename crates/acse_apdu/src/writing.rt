//! APDUs, each in its one form.

ghost use Rattle.std.specs.Prelude.{◌≡◌, ◌<◌, ◌^◌, ◌++◌, length, IfOk, OnOk};
ghost use Rattle.ber_write.specs.Minimal.{octets_of};
ghost use Rattle.acse_apdu.specs.declared.codes.TheConstants.{RLRQ, RLRE};
ghost use Rattle.acse_apdu.specs.Written.{name_field, result_fields, external_content};
ghost use Rattle.acse_apdu.specs.Written.{information_content, aarq_content, aare_content};
ghost use Rattle.acse_apdu.specs.Written.{aarq_octets};
ghost use Rattle.acse_apdu.specs.Written.{aare_octets, release_octets};

use crate::codes::{
    AARE, AARQ, APPLICATION_CONTEXT_NAME, EXTERNAL, INTEGER, OBJECT_IDENTIFIER, RESULT,
    RESULT_SOURCE_DIAGNOSTIC, SINGLE_ASN1_TYPE, USER_INFORMATION,
};
use ber_write::{put, put_uint};
use std::alloc::{AllocError, Global};
use sv_base::{Octs, object_ids};

/// The content of an EXTERNAL.
fn external(alloc: Global, context: u32, pdu: &[u8]) -> Result<Vec<u8>, AllocError>
    requires { length pdu.now < 2 ^ 32 }
    ensures { IfOk result (λ v. v.items ≡ external_content context pdu.now) }
{
    let mut out = Vec::new(alloc);
    put(&mut out, OBJECT_IDENTIFIER, &object_ids::BER)?;
    put_uint(&mut out, INTEGER, u64::from(context))?;
    put(&mut out, SINGLE_ASN1_TYPE, pdu)?;
    Ok(out)
}

/// The content of the user information.
fn information(alloc: Global, context: u32, pdu: &[u8]) -> Result<Vec<u8>, AllocError>
    requires { length (external_content context pdu.now) < 2 ^ 32 }
    ensures { IfOk result (λ v. v.items ≡ information_content context pdu.now) }
{
    let external = external(alloc, context, pdu)?;
    let mut out = Vec::new(alloc);
    put(&mut out, EXTERNAL, &external)?;
    Ok(out)
}

fn put_name(out: &mut Vec<u8>) -> Result<(), AllocError>
    ensures { OnOk result (out.new.items ≡ out.old.items ++ name_field) }
{
    put(
        out,
        APPLICATION_CONTEXT_NAME,
        &[0x06, 5, 0x28, 0xca, 0x22, 2, 3],
    )
}

fn put_result(out: &mut Vec<u8>) -> Result<(), AllocError>
    ensures { OnOk result (out.new.items ≡ out.old.items ++ result_fields) }
{
    put(out, RESULT, &[0x02, 1, 0])?;
    put(out, RESULT_SOURCE_DIAGNOSTIC, &[0xa1, 3, 0x02, 1, 0])
}

/// The AARQ, association request, that asks for the application context of MMS and carries this PDU (ISO 8650-1, "ACSE-1";
/// ISO 9506-2, the initiate request). `context` is the number of the presentation context of MMS. The direct reference
/// is 2.1.1, BER.
///
/// No content in it may be above 4294967295 octets.
#[tactic(auto, unfolding(crate::specs::Written::aarq_octets))]
pub fn write_aarq(alloc: Global, context: u32, pdu: &[u8]) -> Result<Octs, AllocError>
    requires { length (aarq_content context pdu.now) < 2 ^ 32 }
    ensures { IfOk result (λ o. o ≡ aarq_octets context pdu.now) }
{
    let information = information(alloc, context, pdu)?;
    let mut fields = Vec::new(alloc);
    put_name(&mut fields)?;
    put(&mut fields, USER_INFORMATION, &information)?;
    let mut out = Vec::new(alloc);
    put(&mut out, AARQ, &fields)?;
    Ok(Octs::from_vec(out))
}

/// The AARE, association response, that accepts the application context of MMS and carries this PDU (ISO 8650-1, "ACSE-1";
/// ISO 9506-2, the initiate response). The result is accepted, with the diagnostic null of the service user. `context`
/// is the number of the presentation context of MMS. The direct reference is 2.1.1, BER.
///
/// No content in it may be above 4294967295 octets.
#[tactic(auto, unfolding(crate::specs::Written::aare_octets))]
pub fn write_aare(alloc: Global, context: u32, pdu: &[u8]) -> Result<Octs, AllocError>
    requires { length (aare_content context pdu.now) < 2 ^ 32 }
    ensures { IfOk result (λ o. o ≡ aare_octets context pdu.now) }
{
    let information = information(alloc, context, pdu)?;
    let mut fields = Vec::new(alloc);
    put_name(&mut fields)?;
    put_result(&mut fields)?;
    put(&mut fields, USER_INFORMATION, &information)?;
    let mut out = Vec::new(alloc);
    put(&mut out, AARE, &fields)?;
    Ok(Octs::from_vec(out))
}

/// The RLRQ, release request, with the reason normal (ISO 8650-1, "ACSE-1").
pub fn write_rlrq() -> [u8; 5]
    ensures { result ≡ release_octets RLRQ }
{
    [0x62, 3, 0x80, 1, 0]
}

/// The RLRE, release response, with the reason normal (ISO 8650-1, "ACSE-1").
pub fn write_rlre() -> [u8; 5]
    ensures { result ≡ release_octets RLRE }
{
    [0x63, 3, 0x80, 1, 0]
}
