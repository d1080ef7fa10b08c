//! The answer to a request, and the forms of those to a read and to a write (ISO 9506-2, Confirmed-ResponsePDU).

ghost use Rattle.std.specs.Prelude.{◌≡◌, is_some, IfOk};
ghost use Rattle.std.specs.List.{list_all};
ghost use Rattle.ber_grammar.specs.Place.{piece};
ghost use Rattle.ber_grammar.specs.Reader.{and_then};
ghost use Rattle.ber_view.specs.View.{spot};
ghost use Rattle.ber_write.specs.Minimal.{CanBeTag};
ghost use Rattle.mms_pdu.specs.Access.{access_at};
ghost use Rattle.ber_grammar.specs.Fields.{only_in};
ghost use Rattle.mms_pdu.specs.Answer.{IsAnswerBody, is_result, is_written, is_specification};
ghost use Rattle.mms_pdu.specs.Answer.{are_results, is_read_answer, is_answer_body};
ghost use Rattle.mms_pdu.specs.ReplyOctets.{answer_octets};

use crate::access::access_of;
use ber_view::{Elements, Tlv, fields, only};
use ber_write::{add, enclosed, put_uint};
use mms_data::view_data;
use mms_elements::{octet_of, tags};
use std::alloc::{AllocError, Global};
use sv_base::Octs;

/// Whether an element is the result of a read variable: a failure or Data.
#[tactic(auto, unfolding(crate::specs::Answer::is_result))]
fn is_read_result(field: &Tlv<'_>) -> bool
    ensures { result ≡ is_result (spot field.now) }
{
    if field.tag == tags::FAILURE {
        return octet_of(field.content).is_some();
    }
    view_data(field).is_ok()
}

/// Whether an element is the result of a written variable: a failure or success.
#[tactic(auto, unfolding(crate::specs::Answer::is_written))]
fn is_write_result(field: &Tlv<'_>) -> bool
    ensures { result ≡ is_written (spot field.now) }
{
    if field.tag == tags::FAILURE {
        return octet_of(field.content).is_some();
    }
    field.tag == tags::SUCCESS && field.content.is_empty()
}

fn are_read_results(mut fields: Elements<'_>) -> bool
    ensures { result ≡ list_all is_result fields.entry }
{
    fields.all(|field| is_read_result(&field))
}

fn are_write_results(mut fields: Elements<'_>) -> bool
    ensures { result ≡ list_all is_written fields.entry }
{
    fields.all(|field| is_write_result(&field))
}

/// What was read, by the content of its element.
fn access_in(content: &[u8]) -> bool
    ensures { result ≡ is_some (and_then (only_in (piece content.entry)) access_at) }
{
    match only(content) {
        Some(access) => access_of(&access).is_some(),
        None => false,
    }
}

/// Whether an element says what was read.
#[tactic(auto, unfolding(crate::specs::Answer::is_specification))]
pub(crate) fn specifies(field: &Tlv<'_>) -> bool
    ensures { result ≡ is_specification (spot field.now) }
{
    field.tag == tags::SPECIFICATION_OF_RESULT && access_in(field.content)
}

/// Whether an element holds the results of a read.
#[tactic(auto, unfolding(crate::specs::Answer::are_results))]
fn holds_results(field: &Tlv<'_>) -> bool
    ensures { result ≡ are_results (spot field.now) }
{
    if field.tag != tags::LIST_OF_RESULT {
        return false;
    }
    match fields(field.content) {
        Some(results) => are_read_results(results),
        None => false,
    }
}

fn answers_read(mut fields: Elements<'_>) -> bool
    ensures { result ≡ is_read_answer fields.entry }
{
    let Some(first) = fields.next() else {
        return false;
    };
    let Some(second) = fields.next() else {
        return holds_results(&first);
    };
    fields.next().is_none() && specifies(&first) && holds_results(&second)
}

/// Whether a body is of the form that belongs to its tag.
#[tactic(auto, unfolding(crate::specs::Answer::is_answer_body))]
pub(crate) fn has_form(tag: u32, body: &[u8]) -> bool
    ensures { result ≡ is_answer_body tag (piece body.entry) }
{
    if tag != tags::READ && tag != tags::WRITE {
        return true;
    }
    let Some(fields) = fields(body) else {
        return false;
    };
    if tag == tags::READ {
        answers_read(fields)
    } else {
        are_write_results(fields)
    }
}

/// The answer to a request (ISO 9506-2, Confirmed-ResponsePDU, tag A1): the invoke number, and the element of the service
/// with this tag and this content. That of a read, A4, and of a write, A5, is of its form.
#[tactic(auto, unfolding(crate::specs::ReplyOctets::answer_octets))]
pub fn write_answer(alloc: Global, invoke: u32, tag: u32, body: &[u8]) -> Result<Octs, AllocError>
    requires tag { CanBeTag tag }
    requires body { IsAnswerBody tag body.now }
    ensures { IfOk result (λ o. o ≡ answer_octets invoke tag body.now) }
{
    let mut content = Vec::new(alloc);
    put_uint(&mut content, tags::INVOKE_ID, u64::from(invoke))?;
    add(&mut content, tag, body)?;
    Ok(Octs::from_vec(enclosed(alloc, tags::CONFIRMED_RESPONSE, &content)?))
}
