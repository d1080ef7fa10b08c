//! What an APDU says: its application context, its result, and the value in its user information.

ghost use Rattle.std.specs.Prelude.{◌≡◌, IfOk};
ghost use Rattle.std.specs.Option.{option_map};
ghost use Rattle.ber_grammar.specs.Place.{piece};
ghost use Rattle.ber_grammar.specs.Reader.{Gives, Reads};
ghost use Rattle.ber_view.specs.View.{spot};
ghost use Rattle.acse_apdu.specs.Grammar.{IsAarq, IsAarqRefused, IsAare, IsAareRefused, IsRelease};
ghost use Rattle.acse_apdu.specs.Grammar.{IsReleaseRefused};
ghost use Rattle.acse_apdu.specs.Apdu.{apdu_at};
ghost use Rattle.acse_apdu.specs.Contents.{names_mms, result_at, is_zero, is_accepted, is_context};
ghost use Rattle.acse_apdu.specs.Contents.{value_of, external_of, pdu_at};
ghost use Rattle.acse_apdu.specs.Reading.{association_at, aarq_at, aare_at, release_at};
ghost use Rattle.acse_apdu.specs.Reading.{pdu_of_aarq, pdu_of_aare, rlrq_of, rlre_of};

use crate::codes::{
    AARE, AARQ, APPLICATION_CONTEXT_NAME, EXTERNAL, INTEGER, OBJECT_IDENTIFIER, RESULT, RLRE, RLRQ,
    SINGLE_ASN1_TYPE, USER_INFORMATION,
};
use crate::fault::AcFault;
use ber_view::{Elements, Tlv, fields, first_with, only_with, tagged, uint, whole};
use sv_base::object_ids;

/// The content of the APDU with this tag, which is all of `bytes`.
#[tactic(auto, unfolding(crate::specs::Apdu::apdu_at))]
fn apdu(bytes: &[u8], tag: u32) -> Option<&[u8]>
    ensures { option_map piece result ≡ apdu_at tag (piece bytes.entry) }
{
    let apdu = whole(bytes)?;
    let content = tagged(&apdu, tag)?;
    fields(content)?;
    Some(content)
}

/// Whether the application context is that of MMS, 1.0.9506.2.3.
#[tactic(auto, unfolding(crate::specs::Contents::names_mms))]
fn has_mms_name(content: &[u8]) -> bool
    ensures { result ≡ names_mms (piece content.entry) }
{
    let Some(field) = first_with(content, APPLICATION_CONTEXT_NAME) else {
        return false;
    };
    match only_with(field, OBJECT_IDENTIFIER) {
        Some(name) => name == object_ids::MMS_CONTEXT.as_slice(),
        None => false,
    }
}

/// The result of an AARE.
#[tactic(auto, unfolding(crate::specs::Contents::result_at))]
fn result_of(content: &[u8]) -> Option<u64>
    ensures { result ≡ result_at (piece content.entry) }
{
    let field = first_with(content, RESULT)?;
    uint(only_with(field, INTEGER)?).ok()
}

/// Whether the association was accepted.
fn has_accepted(content: &[u8]) -> bool
    ensures { result ≡ is_accepted (piece content.entry) }
{
    result_of(content) == Some(0)
}

/// Whether a field is the number of a presentation context.
fn has_context(field: &Tlv<'_>) -> bool
    ensures { result ≡ is_context (spot field.now) }
{
    field.tag == INTEGER && uint(field.content).is_ok_and(|n| n <= u64::from(u32::MAX))
}

/// What follows the number of a context.
fn value_behind<'a>(context: &Tlv<'a>, mut fields: Elements<'a>) -> Option<&'a [u8]>
    ensures { option_map piece result ≡ value_of (spot context.now) fields.entry }
{
    let value = fields.next()?;
    if fields.next().is_some() || !has_context(context) {
        return None;
    }
    tagged(&value, SINGLE_ASN1_TYPE)
}

/// The value of an EXTERNAL, whose direct reference may be left out.
fn value_in<'a>(mut fields: Elements<'a>) -> Option<&'a [u8]>
    ensures { option_map piece result ≡ external_of fields.entry }
{
    let first = fields.next()?;
    if first.tag == OBJECT_IDENTIFIER {
        let context = fields.next()?;
        return value_behind(&context, fields);
    }
    value_behind(&first, fields)
}

/// The value in the user information.
#[tactic(auto, unfolding(crate::specs::Contents::pdu_at))]
fn user_data(content: &[u8]) -> Option<&[u8]>
    ensures { option_map piece result ≡ pdu_at (piece content.entry) }
{
    let information = first_with(content, USER_INFORMATION)?;
    let external = only_with(information, EXTERNAL)?;
    value_in(fields(external)?)
}

/// What the content of an AARQ, or of an AARE that accepts, carries.
fn association(content: &[u8]) -> Result<&[u8], AcFault>
    ensures { Gives piece result (association_at (piece content.entry)) }
{
    if !has_mms_name(content) {
        return Err(AcFault::ContextName);
    }
    user_data(content).ok_or(AcFault::NoUserInformation)
}

#[tactic(auto, unfolding(crate::specs::Reading::aarq_at))]
fn aarq(bytes: &[u8]) -> Result<&[u8], AcFault>
    ensures { Gives piece result (aarq_at (piece bytes.entry)) }
{
    let content = apdu(bytes, AARQ).ok_or(AcFault::Apdu)?;
    association(content)
}

#[tactic(auto, unfolding(crate::specs::Reading::aare_at))]
fn aare(bytes: &[u8]) -> Result<&[u8], AcFault>
    ensures { Gives piece result (aare_at (piece bytes.entry)) }
{
    let content = apdu(bytes, AARE).ok_or(AcFault::Apdu)?;
    if !has_accepted(content) {
        return Err(AcFault::Apdu);
    }
    association(content)
}

/// An RLRQ or an RLRE, by its tag.
#[tactic(auto, unfolding(crate::specs::Reading::release_at))]
fn release(bytes: &[u8], tag: u32) -> Result<(), AcFault>
    ensures { Gives (λ x. x) result (release_at tag (piece bytes.entry)) }
{
    apdu(bytes, tag).ok_or(AcFault::Apdu)?;
    Ok(())
}

/// The value that an AARQ, association request, carries (ISO 8650-1, "ACSE-1"), which for MMS is an initiate request: the
/// content of the encoding of its EXTERNAL, a slice of `bytes`.
///
/// Of the fields the first application context name and the first user information count, and others are skipped. The
/// EXTERNAL may have a direct reference, and its number of a presentation context is below 2^32.
///
/// Fails with the first of these: `Apdu` where `bytes` are not one whole AARQ that is cut into whole fields,
/// `ContextName` where it doesn't name the application context of MMS, `NoUserInformation` where its user information
/// isn't one EXTERNAL.
pub fn read_aarq(bytes: &[u8]) -> Result<&[u8], AcFault>
    // The octets and where they lie, where the input spells that, else the refusal that the input earns.
    ensures reads { Reads piece result (IsAarq (piece bytes.entry))
        (IsAarqRefused (piece bytes.entry)) }
    ensures exact { Gives (λ x. x.now) result (pdu_of_aarq bytes.now) }
{
    aarq(bytes)
}

/// The value that an AARE, association response, carries (ISO 8650-1, "ACSE-1"), which for MMS is an initiate response: the
/// content of the encoding of its EXTERNAL, a slice of `bytes`.
///
/// Of the fields the first of each kind counts, and others are skipped, the diagnostic too.
///
/// Fails with the first of these: `Apdu` where `bytes` are not one whole AARE that is cut into whole fields, or its
/// result isn't 0, accepted; `ContextName` where it doesn't name the application context of MMS; `NoUserInformation`
/// where its user information isn't one EXTERNAL.
pub fn read_aare(bytes: &[u8]) -> Result<&[u8], AcFault>
    ensures reads { Reads piece result (IsAare (piece bytes.entry))
        (IsAareRefused (piece bytes.entry)) }
    ensures exact { Gives (λ x. x.now) result (pdu_of_aare bytes.now) }
{
    aare(bytes)
}

/// Takes an RLRQ, release request (ISO 8650-1, "ACSE-1"), whatever whole fields it has.
///
/// Fails with `Apdu` where `bytes` are not one whole RLRQ that is cut into whole fields.
pub fn read_rlrq(bytes: &[u8]) -> Result<(), AcFault>
    ensures reads { Reads (λ x. x) result (λ x. IsRelease RLRQ (piece bytes.entry))
        (IsReleaseRefused RLRQ (piece bytes.entry)) }
    ensures exact { Gives (λ x. x) result (rlrq_of bytes.now) }
{
    release(bytes, RLRQ)
}

/// Takes an RLRE, release response (ISO 8650-1, "ACSE-1"), whatever whole fields it has.
///
/// Fails with `Apdu` where `bytes` are not one whole RLRE that is cut into whole fields.
pub fn read_rlre(bytes: &[u8]) -> Result<(), AcFault>
    ensures reads { Reads (λ x. x) result (λ x. IsRelease RLRE (piece bytes.entry))
        (IsReleaseRefused RLRE (piece bytes.entry)) }
    ensures exact { Gives (λ x. x) result (rlre_of bytes.now) }
{
    release(bytes, RLRE)
}
