//! SPDUs and PPDUs, each in its one form.

ghost use Rattle.std.specs.Prelude.{◌≡◌, ◌+◌, ◌<◌, ◌≤◌, ◌^◌, ◌++◌, length, OnOk, IfOk};
ghost use Rattle.std.specs.List.{flat_map};
ghost use Rattle.ber_write.specs.Minimal.{octets_of, uint_octets, element_size};
ghost use Rattle.session_pres.specs.Written.{pdv_fields, pdv_list, user_octets, length_field};
ghost use Rattle.session_pres.specs.Written.{field, data_spdu, release_spdu, accept_parameters};
ghost use Rattle.session_pres.specs.Written.{accept_spdu, connect_item};
ghost use Rattle.session_pres.specs.WrittenPpdu.{set_content, ppdu, result_octets, cpa_parameters};
ghost use Rattle.session_pres.specs.WrittenPpdu.{cpa_octets, cp_head, cp_octets};
ghost use Rattle.session_pres.specs.WrittenPpdu.{connect_parameters, connect_spdu};

use crate::codes::{
    ACCEPT, CONNECT, CONTEXT_RESULT_LIST, DATA_TRANSFER, DISCONNECT, FINISH, FULLY_ENCODED_DATA,
    GIVE_TOKENS, INTEGER, NORMAL_MODE_PARAMETERS, SEQUENCE, SET, SINGLE_ASN1_TYPE, USER_DATA,
};
use crate::contexts::Contexts;
use crate::presentation::Cp;
use ber_write::{length_of, put, put_head, put_uint, uint_len};
use std::alloc::{AllocError, Global};
use sv_base::Octs;

/// How many octets an element has, whose tag has one octet.
#[tactic(auto, unfolding(ber_write::specs::Minimal::element_size))]
fn element_len(content: u32) -> u32
    requires { element_size content < 2 ^ 32 }
    ensures { result ≡ element_size content }
{
    1 + length_of(content) + content
}

/// How many octets the fields of a PDV have.
#[tactic(auto, unfolding(crate::specs::Written::pdv_list, crate::specs::Written::pdv_fields, ber_write::specs::Minimal::element_size))]
fn pdv_len(context: u32, value: &[u8]) -> u32
    requires { length (pdv_list context value.now) < 2 ^ 32 }
    ensures { result ≡ length (pdv_fields context value.now) }
{
    element_len(uint_len(u64::from(context))) + element_len(value.len() as u32)
}

/// Adds user data of one PDV.
#[tactic(auto, unfolding(crate::specs::Written::user_octets))]
fn put_user_data(out: &mut Vec<u8>, context: u32, value: &[u8]) -> Result<(), AllocError>
    requires { length (pdv_list context value.now) < 2 ^ 32 }
    ensures { OnOk result (out.new.items ≡ out.old.items ++ user_octets context value.now) }
{
    let len = pdv_len(context, value);
    put_head(out, FULLY_ENCODED_DATA, element_len(len))?;
    put_head(out, SEQUENCE, len)?;
    put_uint(out, INTEGER, u64::from(context))?;
    put(out, SINGLE_ASN1_TYPE, value)
}

/// Adds a code, the length of a value, and the value (ISO 8327-1, "Structure of SPDUs").
#[tactic(auto, unfolding(crate::specs::Written::field))]
fn put_field(out: &mut Vec<u8>, code: u8, value: &[u8]) -> Result<(), AllocError>
    requires { length value.now ≤ 65535 }
    ensures { OnOk result (out.new.items ≡ out.old.items ++ field code value.now) }
{
    let len = value.len();
    if len < 255 {
        out.extend_from_slice(&[code, len as u8])?;
    } else {
        out.extend_from_slice(&[code, 255, (len / 256) as u8, (len % 256) as u8])?;
    }
    out.extend_from_slice(value)
}

/// Octets in a new vector, and after them user data of one PDV.
fn with_user_data(
    alloc: Global,
    head: &[u8],
    context: u32,
    value: &[u8],
) -> Result<Vec<u8>, AllocError>
    requires { length (pdv_list context value.now) < 2 ^ 32 }
    ensures { IfOk result (λ v. v.items ≡ head.now ++ user_octets context value.now) }
{
    let mut out = Vec::from_slice(alloc, head)?;
    put_user_data(&mut out, context, value)?;
    Ok(out)
}

/// Octets in a new vector, and after them a code, the length of a value, and the value.
fn with_field(alloc: Global, head: &[u8], code: u8, value: &[u8]) -> Result<Vec<u8>, AllocError>
    requires { length value.now ≤ 65535 }
    ensures { IfOk result (λ v. v.items ≡ head.now ++ field code value.now) }
{
    let mut out = Vec::from_slice(alloc, head)?;
    put_field(&mut out, code, value)?;
    Ok(out)
}

/// A SET with the normal mode and its parameters.
#[tactic(auto, unfolding(crate::specs::WrittenPpdu::ppdu, crate::specs::WrittenPpdu::set_content))]
fn ppdu_of(alloc: Global, parameters: &[u8]) -> Result<Vec<u8>, AllocError>
    requires { length (set_content parameters.now) < 2 ^ 32 }
    ensures { IfOk result (λ v. v.items ≡ ppdu parameters.now) }
{
    let mut content = Vec::from_slice(alloc, &[0xa0, 3, 0x80, 1, 1])?;
    put(&mut content, NORMAL_MODE_PARAMETERS, parameters)?;
    let mut out = Vec::new(alloc);
    put(&mut out, SET, &content)?;
    Ok(out)
}

/// The result that accepts a context with BER, or refuses it.
fn result_of(accepted: bool) -> &'static [u8]
    ensures { result.now ≡ result_octets accepted }
{
    if accepted {
        &[0x30, 7, 0x80, 1, 0, 0x81, 2, 0x51, 1]
    } else {
        &[0x30, 3, 0x80, 1, 1]
    }
}

/// Adds the results for the contexts, each in its place.
fn put_results(out: &mut Vec<u8>, contexts: &Contexts) -> Result<(), AllocError>
    ensures { OnOk result (out.new.items ≡ out.old.items ++ flat_map result_octets contexts.now) }
{
    for place in 0..contexts.len() {
        let accepted = contexts.get(place).unwrap_or(false);
        out.extend_from_slice(result_of(accepted))?;
    }
    Ok(())
}

/// An SPDU that carries data (ISO 8327-1, "DATA TRANSFER"): its user data are one PDV, with this value in this context. No
/// content of an element in it is above 4294967295 octets.
#[tactic(auto, unfolding(crate::specs::Written::data_spdu))]
pub fn write_data(alloc: Global, context: u32, pdu: &[u8]) -> Result<Octs, AllocError>
    requires { length (pdv_list context pdu.now) < 2 ^ 32 }
    ensures { IfOk result (λ o. o ≡ data_spdu context pdu.now) }
{
    let out = with_user_data(alloc, &[GIVE_TOKENS, 0, DATA_TRANSFER, 0], context, pdu)?;
    Ok(Octs::from_vec(out))
}

#[tactic(auto, unfolding(crate::specs::Written::release_spdu))]
fn release_of(alloc: Global, code: u8, context: u32, apdu: &[u8]) -> Result<Octs, AllocError>
    requires { length (field USER_DATA (user_octets context apdu.now)) ≤ 65535 }
    ensures { IfOk result (λ o. o ≡ release_spdu code context apdu.now) }
{
    let user = with_user_data(alloc, &[], context, apdu)?;
    let parameters = with_field(alloc, &[], USER_DATA, &user)?;
    let out = with_field(alloc, &[], code, &parameters)?;
    Ok(Octs::from_vec(out))
}

/// A DISCONNECT (ISO 8327-1) whose user data hold this APDU in this context. Its length is at most 65535.
pub fn write_dn(alloc: Global, context: u32, rlre: &[u8]) -> Result<Octs, AllocError>
    requires { length (field USER_DATA (user_octets context rlre.now)) ≤ 65535 }
    ensures { IfOk result (λ o. o ≡ release_spdu DISCONNECT context rlre.now) }
{
    release_of(alloc, DISCONNECT, context, rlre)
}

/// A FINISH (ISO 8327-1) whose user data hold this APDU in this context. Its length is at most 65535.
pub fn write_fn(alloc: Global, context: u32, rlrq: &[u8]) -> Result<Octs, AllocError>
    requires { length (field USER_DATA (user_octets context rlrq.now)) ≤ 65535 }
    ensures { IfOk result (λ o. o ≡ release_spdu FINISH context rlrq.now) }
{
    release_of(alloc, FINISH, context, rlrq)
}

/// An ACCEPT (ISO 8327-1) with version 2, the duplex functional unit, and this CPA as user data. Its length is at most 65535.
#[tactic(auto, unfolding(crate::specs::Written::accept_spdu, crate::specs::Written::accept_parameters))]
pub fn write_ac(alloc: Global, cpa: &[u8]) -> Result<Octs, AllocError>
    requires { length (accept_parameters cpa.now) ≤ 65535 }
    ensures { IfOk result (λ o. o ≡ accept_spdu cpa.now) }
{
    let parameters = with_field(
        alloc,
        &[5, 6, 0x13, 1, 0, 0x16, 1, 2, 0x14, 2, 0, 2],
        USER_DATA,
        cpa,
    )?;
    let out = with_field(alloc, &[], ACCEPT, &parameters)?;
    Ok(Octs::from_vec(out))
}

/// The CPA (ISO 8823-1, "CPA-PPDU") that answers a CP: a result for each of the client's contexts in its place, BER for the
/// two that are accepted, and this APDU in the context of ACSE.
#[tactic(auto, unfolding(crate::specs::WrittenPpdu::cpa_octets, crate::specs::WrittenPpdu::cpa_parameters))]
pub fn write_cpa(alloc: Global, cp: &Cp<'_>, aare: &[u8]) -> Result<Octs, AllocError>
    requires { length (set_content (cpa_parameters cp.now.list cp.now.acse aare.now)) < 2 ^ 32 }
    ensures { IfOk result (λ o. o ≡ cpa_octets cp.now.list cp.now.acse aare.now) }
{
    let mut results = Vec::new(alloc);
    put_results(&mut results, &cp.list)?;
    let mut parameters = Vec::new(alloc);
    put(&mut parameters, CONTEXT_RESULT_LIST, &results)?;
    put_user_data(&mut parameters, cp.acse, aare)?;
    Ok(Octs::from_vec(ppdu_of(alloc, &parameters)?))
}

/// A CONNECT (ISO 8327-1) with version 2, the duplex functional unit, both session selectors 1, and a CP (ISO 8823-1,
/// "CP-type") that offers with BER the contexts 1, of ACSE, and 3, of MMS, and has this APDU in the first. Its length is at
/// most 65535.
#[tactic(auto, unfolding(crate::specs::WrittenPpdu::connect_spdu, crate::specs::WrittenPpdu::connect_parameters, crate::specs::WrittenPpdu::cp_octets))]
pub fn write_cn(alloc: Global, aarq: &[u8]) -> Result<Octs, AllocError>
    requires { length (connect_parameters aarq.now) ≤ 65535 }
    ensures { IfOk result (λ o. o ≡ connect_spdu aarq.now) }
{
    let parameters = with_user_data(
        alloc,
        &[
            0x81, 4, 0, 0, 0, 1, 0x82, 4, 0, 0, 0, 1, 0xa4, 0x23, 0x30, 0x0f, 2, 1, 1, 6, 4, 0x52,
            1, 0, 1, 0x30, 4, 6, 2, 0x51, 1, 0x30, 0x10, 2, 1, 3, 6, 5, 0x28, 0xca, 0x22, 2, 1,
            0x30, 4, 6, 2, 0x51, 1,
        ],
        1,
        aarq,
    )?;
    let cp = ppdu_of(alloc, &parameters)?;
    let parameters = with_field(
        alloc,
        &[
            5, 6, 0x13, 1, 0, 0x16, 1, 2, 0x14, 2, 0, 2, 0x33, 2, 0, 1, 0x34, 2, 0, 1,
        ],
        USER_DATA,
        &cp,
    )?;
    let out = with_field(alloc, &[], CONNECT, &parameters)?;
    Ok(Octs::from_vec(out))
}
