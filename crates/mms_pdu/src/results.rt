//! What the answer to a read or a write of one variable says (ISO 9506-2, Read-Response and Write-Response).

ghost use Rattle.std.specs.Prelude.{◌≡◌, ℕ, List, Result, IfOk, IfSome, IfNone};
ghost use Rattle.std.specs.Option.{option_map};
ghost use Rattle.ber_grammar.specs.Octets.{IsBytes};
ghost use Rattle.ber_grammar.specs.Place.{piece};
ghost use Rattle.ber_view.specs.View.{spot};
ghost use Rattle.sv_base.specs.Tree.{Seen};
ghost use Rattle.mms_pdu.specs.Results.{seen_result, SaysRead, SaysWritten, read_at, written_at};
ghost use Rattle.mms_pdu.specs.Results.{results_at, one_read, one_write};

use crate::answer::specifies;
use ber_view::{Elements, Tlv, fields, only};
use mms_data::view_data;
use mms_elements::{octet_of, tags};
use std::alloc::{AllocError, Global};
use sv_base::AccessResult;

/// The value of a variable that was read, or the code of why there is none.
#[tactic(auto, unfolding(crate::specs::Results::read_at, mms_data::specs::View::view_at))]
fn read_of(alloc: Global, field: &Tlv<'_>) -> Result<Option<AccessResult>, AllocError>
    ensures { IfOk result (λ r. option_map seen_result r ≡ read_at (spot field.now)) }
{
    if field.tag == tags::FAILURE {
        return match octet_of(field.content) {
            Some(code) => Ok(Some(Err(code))),
            None => Ok(None),
        };
    }
    match view_data(field) {
        Ok(view) => {
            let value = view.value(alloc)?;
            Ok(Some(Ok(value)))
        }
        Err(_) => Ok(None),
    }
}

/// That a variable was written, or the code of why not.
#[tactic(auto, unfolding(crate::specs::Results::written_at))]
fn written_of(field: &Tlv<'_>) -> Option<Result<(), u8>>
    ensures { result ≡ written_at (spot field.now) }
{
    if field.tag == tags::FAILURE {
        let code = octet_of(field.content)?;
        return Some(Err(code));
    }
    if field.tag == tags::SUCCESS && field.content.is_empty() {
        return Some(Ok(()));
    }
    None
}

/// The element with the results of a read, after the specification, which may be absent.
fn results_of(mut fields: Elements<'_>) -> Option<Tlv<'_>>
    ensures { option_map spot result ≡ results_at fields.entry }
{
    let first = fields.next()?;
    let Some(second) = fields.next() else {
        return Some(first);
    };
    if fields.next().is_some() || !specifies(&first) {
        return None;
    }
    Some(second)
}

/// The one result of a read.
#[tactic(auto, unfolding(crate::specs::Results::one_read))]
fn read_in(alloc: Global, body: &[u8]) -> Result<Option<AccessResult>, AllocError>
    ensures { IfOk result (λ r. option_map seen_result r ≡ one_read (piece body.entry)) }
{
    let Some(fields) = fields(body) else {
        return Ok(None);
    };
    let Some(results) = results_of(fields) else {
        return Ok(None);
    };
    if results.tag != tags::LIST_OF_RESULT {
        return Ok(None);
    }
    match only(results.content) {
        Some(field) => read_of(alloc, &field),
        None => Ok(None),
    }
}

/// What the body of the answer to a read says of the one variable that was read (ISO 9506-2, Read-Response): its value, or the
/// DataAccessError of why there is none. Nothing exactly where the body isn't that of an answer about one variable.
pub fn read_result(alloc: Global, body: &[u8]) -> Result<Option<AccessResult>, AllocError>
    ensures says { IfOk result (λ o. IfSome o (λ r. SaysRead body.now (seen_result r))) }
    ensures nothing { IfOk result (λ o. IfNone o ((r : Result Seen ℕ) → ¬ SaysRead body.now r)) }
{
    read_in(alloc, body)
}

/// The one result of a write.
#[tactic(auto, unfolding(crate::specs::Results::one_write))]
fn written_in(body: &[u8]) -> Option<Result<(), u8>>
    ensures { result ≡ one_write (piece body.entry) }
{
    written_of(&only(body)?)
}

/// What the body of the answer to a write says of the one variable that was written (ISO 9506-2, Write-Response): success, or
/// the DataAccessError of why not. Nothing exactly where the body isn't that of an answer about one variable. It takes no
/// memory.
pub fn write_result(body: &[u8]) -> Option<Result<(), u8>>
    ensures says { IfSome result (λ r. SaysWritten body.now r) }
    ensures nothing { IfNone result ((r : Result (Unit {0}) ℕ) → ¬ SaysWritten body.now r) }
{
    written_in(body)
}

/// The body of an answer says one thing at most of one variable.
pub fn each_answer_says_one_result()
    ensures read { (body : List ℕ) (q r : Result Seen ℕ) → IsBytes body → SaysRead body q
        → SaysRead body r → q ≡ r }
    ensures written { (body : List ℕ) (q r : Result (Unit {0}) ℕ) → IsBytes body
        → SaysWritten body q → SaysWritten body r → q ≡ r }
{}
