//! What an event of a server's stream is to a client.

ghost use Rattle.std.specs.Prelude.{MatchResult, None, Some};
ghost use Rattle.mms_pdu.specs.Reply.{answer, error, reject, concluded, information, IsReply};
ghost use Rattle.mms_client.specs.Meaning.{Declines, Fits, Gives, MeansPdu, RefusesPdu};
ghost use Rattle.mms_client.specs.Meaning.{Means, RefusesEvent, IsRefusal};

use crate::fault::{ClientFault, OTHER_REPLY};
use mms_elements::tags;
use mms_pdu::{ReplyView, read_result, reply, write_result};
use osi_stack::Event;
use report_cut::{ReportFault, ReportPart, read_report};
use std::alloc::Global;
use sv_base::AccessResult;

/// What is awaited.
#[derive(Clone, Copy, Debug)]
pub enum Awaited {
    /// Reports alone.
    Reports,
    /// The answer to the read with this invoke number.
    Read(u32),
    /// The answer to the write with this invoke number.
    Write(u32),
    /// The answer to the conclude.
    Conclude,
    /// The release.
    Release,
}

/// What was awaited, once it has come.
#[derive(Drop)]
pub enum Outcome {
    /// What the variable that was read is, or why it isn't told.
    Read(AccessResult),
    /// Whether the variable was written, or why not.
    Written(Result<(), u8>),
    Concluded,
    Released,
}

/// What an event is to a client.
#[derive(Drop)]
pub enum Meaning {
    /// A PDU of a report.
    Part(ReportPart),
    /// Nothing that a client regards.
    Nothing,
    /// What is awaited.
    Came(Outcome),
}

/// The answer with a number and a tag, where it is the one that is awaited.
fn outcome_of_answer(
    alloc: Global,
    awaited: Awaited,
    invoke: u32,
    tag: u32,
    body: &[u8],
) -> Result<Outcome, ClientFault>
    ensures { MatchResult result
        (λ m. Gives awaited (answer invoke tag body.now) m)
        (λ f. IsRefusal awaited (answer invoke tag body.now) f) }
{
    match awaited {
        Awaited::Read(asked) if asked == invoke && tag == tags::READ => {
            match read_result(alloc, body)? {
                Some(result) => Ok(Outcome::Read(result)),
                None => Err(OTHER_REPLY),
            }
        }
        Awaited::Write(asked) if asked == invoke && tag == tags::WRITE => match write_result(body) {
            Some(result) => Ok(Outcome::Written(result)),
            None => Err(OTHER_REPLY),
        },
        _ => Err(OTHER_REPLY),
    }
}

/// An error with this number, class and code, by what is awaited.
fn refusal_of_error(awaited: Awaited, invoke: u32, class: u8, code: u8) -> ClientFault
    ensures { IsRefusal awaited (error invoke class code) result }
{
    match awaited {
        Awaited::Read(asked) | Awaited::Write(asked) if asked == invoke => {
            ClientFault::Service { class, code }
        }
        _ => OTHER_REPLY,
    }
}

/// A reject without a number.
fn refusal_of_any(awaited: Awaited, code: u8) -> ClientFault
    ensures { IsRefusal awaited (reject None code) result }
{
    match awaited {
        Awaited::Read(_) | Awaited::Write(_) | Awaited::Conclude => {
            ClientFault::Service { class: 255, code }
        }
        Awaited::Reports | Awaited::Release => OTHER_REPLY,
    }
}

/// A reject of the request with this number.
fn refusal_of_request(awaited: Awaited, invoke: u32, code: u8) -> ClientFault
    ensures { IsRefusal awaited (reject (Some invoke) code) result }
{
    match awaited {
        Awaited::Read(asked) | Awaited::Write(asked) if asked == invoke => {
            ClientFault::Service { class: 255, code }
        }
        _ => OTHER_REPLY,
    }
}

/// A reject with this code, and with this number where it has one.
fn refusal_of_reject(awaited: Awaited, invoke: Option<u32>, code: u8) -> ClientFault
    ensures { IsRefusal awaited (reject invoke code) result }
{
    match invoke {
        Some(invoke) => refusal_of_request(awaited, invoke, code),
        None => refusal_of_any(awaited, code),
    }
}

/// The end of a conclude.
fn outcome_of_end(awaited: Awaited) -> Result<Outcome, ClientFault>
    ensures { MatchResult result
        (λ m. Gives awaited concluded m) (λ f. IsRefusal awaited concluded f) }
{
    match awaited {
        Awaited::Conclude => Ok(Outcome::Concluded),
        _ => Err(OTHER_REPLY),
    }
}

/// An information report, whole.
fn meaning_of_report(alloc: Global, awaited: Awaited, pdu: &[u8]) -> Result<Meaning, ClientFault>
    requires { IsReply pdu.now (information pdu.now) }
    ensures { MatchResult result
        (λ m. MeansPdu awaited pdu.now m) (λ f. RefusesPdu awaited pdu.now f) }
{
    match read_report(alloc, pdu) {
        Ok(part) => Ok(Meaning::Part(part)),
        Err(ReportFault::Invalid) => Ok(Meaning::Nothing),
        Err(ReportFault::Memory) => Err(ClientFault::Memory),
    }
}

/// What a PDU is.
fn meaning_of_pdu(alloc: Global, awaited: Awaited, pdu: &[u8]) -> Result<Meaning, ClientFault>
    ensures { MatchResult result
        (λ m. MeansPdu awaited pdu.now m) (λ f. RefusesPdu awaited pdu.now f) }
{
    match reply(pdu)? {
        ReplyView::Information(pdu) => meaning_of_report(alloc, awaited, pdu),
        ReplyView::Answer { invoke, tag, body } => {
            let outcome = outcome_of_answer(alloc, awaited, invoke, tag, body)?;
            Ok(Meaning::Came(outcome))
        }
        ReplyView::Error {
            invoke,
            class,
            code,
        } => Err(refusal_of_error(awaited, invoke, class, code)),
        ReplyView::Reject { invoke, code } => Err(refusal_of_reject(awaited, invoke, code)),
        ReplyView::Concluded => Ok(Meaning::Came(outcome_of_end(awaited)?)),
    }
}

/// What an event is, while this is awaited.
pub fn meaning_of(alloc: Global, awaited: Awaited, event: &Event) -> Result<Meaning, ClientFault>
    ensures { MatchResult result
        (λ m. Means awaited event.now m) (λ f. RefusesEvent awaited event.now f) }
{
    match event {
        Event::Pdu(pdu) => meaning_of_pdu(alloc, awaited, pdu.as_slice()),
        Event::Released(_) => match awaited {
            Awaited::Release => Ok(Meaning::Came(Outcome::Released)),
            _ => Err(ClientFault::Ended),
        },
        Event::Aborted => Err(ClientFault::Ended),
        Event::Answer(_) | Event::Connected(..) => Ok(Meaning::Nothing),
    }
}
