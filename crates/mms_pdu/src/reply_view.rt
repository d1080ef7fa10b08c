//! What a server sends, read (ISO 9506-2, MMSpdu).

ghost use Rattle.std.specs.Prelude.{◌≡◌, List, IfOk};
ghost use Rattle.std.specs.Option.{option_map};
ghost use Rattle.ber_grammar.specs.Place.{piece};
ghost use Rattle.ber_grammar.specs.Reader.{Gives, Reads};
ghost use Rattle.ber_view.specs.View.{spot};
ghost use Rattle.mms_pdu.specs.Reply.{reply_octets, IsReply, IsReplyRefused};
ghost use Rattle.mms_pdu.specs.ReplyReading.{service_in, answer_in, class_at, class_in};
ghost use Rattle.mms_pdu.specs.ReplyReading.{error_class_in, service_error_in, error_in, reason_at};
ghost use Rattle.mms_pdu.specs.ReplyReading.{reject_in, pdu_in, reply_in};
ghost use Rattle.mms_pdu.specs.ReplyView.{reply_of, IsPlaced};

use crate::answer::has_form;
use crate::reading::may_begin_pdu;
use ber_view::{Tlv, only, whole};
use mms_elements::{PduFault, numbered_of, octet_of, tags};

/// What a server sends to a client that is connected.
#[derive(Clone, Copy, Debug, PartialEq, Eq)]
pub enum ReplyView<'a> {
    /// The answer to the request with this invoke number: the tag of the service's element, as one big-endian number of
    /// its octets, and what the element holds.
    Answer {
        invoke: u32,
        tag: u32,
        body: &'a [u8],
    },
    /// An error that answers the request with this invoke number: the number of its class and its code.
    Error {
        invoke: u32,
        class: u8,
        code: u8,
    },
    /// A reject, with the invoke number of what is rejected where it says one, and the code in its reason.
    Reject {
        invoke: Option<u32>,
        code: u8,
    },
    /// The association is concluded.
    Concluded,
    /// An unconfirmed PDU, whole, as of a report.
    Information(&'a [u8]),
}

/// The tag and the content of the service's element.
#[tactic(auto, unfolding(crate::specs::ReplyReading::service_in))]
fn service_of(bytes: &[u8]) -> Option<(u32, &[u8])>
    ensures { option_map (λ x. (x.0, piece x.1)) result ≡ service_in (piece bytes.entry) }
{
    let service = whole(bytes)?;
    if !has_form(service.tag, service.content) {
        return None;
    }
    Some((service.tag, service.content))
}

#[tactic(auto, unfolding(crate::specs::ReplyReading::answer_in))]
fn answer_of(content: &[u8]) -> Result<ReplyView<'_>, PduFault>
    ensures { Gives reply_of result (answer_in (piece content.entry)) }
{
    let (invoke, rest) = numbered_of(tags::INVOKE_ID, content).ok_or(PduFault::Invalid)?;
    let (tag, body) = service_of(rest).ok_or(PduFault::Argument(invoke))?;
    Ok(ReplyView::Answer { invoke, tag, body })
}

/// The number of a tag of the context class.
fn class_of(tag: u32) -> Option<u8>
    ensures { result ≡ class_at tag }
{
    match tag {
        0x80..=0x9e => Some((tag - 0x80) as u8),
        0x9f1f..=0x9f7f => Some((tag - 0x9f00) as u8),
        0x9f8100..=0x9f817f => Some((tag - 0x9f8080) as u8),
        _ => None,
    }
}

/// The class and the code of an error, by the element of its class.
fn class_and_code(field: &Tlv<'_>) -> Option<(u8, u8)>
    ensures { result ≡ class_in (spot field.now) }
{
    let class = class_of(field.tag)?;
    let code = octet_of(field.content)?;
    Some((class, code))
}

fn error_class_of(field: &Tlv<'_>) -> Option<(u8, u8)>
    ensures { result ≡ error_class_in (spot field.now) }
{
    if field.tag != tags::ERROR_CLASS {
        return None;
    }
    class_and_code(&only(field.content)?)
}

#[tactic(auto, unfolding(crate::specs::ReplyReading::service_error_in))]
fn service_error_of(bytes: &[u8]) -> Option<(u8, u8)>
    ensures { result ≡ service_error_in (piece bytes.entry) }
{
    let error = whole(bytes)?;
    if error.tag != tags::SERVICE_ERROR {
        return None;
    }
    error_class_of(&only(error.content)?)
}

#[tactic(auto, unfolding(crate::specs::ReplyReading::error_in))]
fn error_of(content: &[u8]) -> Result<ReplyView<'_>, PduFault>
    ensures { Gives reply_of result (error_in (piece content.entry)) }
{
    let (invoke, rest) = numbered_of(tags::ORIGINAL_INVOKE_ID, content).ok_or(PduFault::Invalid)?;
    let (class, code) = service_error_of(rest).ok_or(PduFault::Argument(invoke))?;
    Ok(ReplyView::Error {
        invoke,
        class,
        code,
    })
}

/// The code of a reject's reason, under the tag of any reason (ISO 9506-2, rejectReason).
#[tactic(auto, unfolding(crate::specs::ReplyReading::reason_at))]
fn reason_of(bytes: &[u8]) -> Option<u8>
    ensures { result ≡ reason_at bytes.now }
{
    let reason = whole(bytes)?;
    match reason.tag {
        0x81..=0x8b => octet_of(reason.content),
        _ => None,
    }
}

#[tactic(auto, unfolding(crate::specs::ReplyReading::reject_in))]
fn reject_of(content: &[u8]) -> Result<ReplyView<'_>, PduFault>
    ensures { Gives reply_of result (reject_in (piece content.entry)) }
{
    match numbered_of(tags::ORIGINAL_INVOKE_ID, content) {
        Some((invoke, rest)) => {
            let code = reason_of(rest).ok_or(PduFault::Argument(invoke))?;
            Ok(ReplyView::Reject {
                invoke: Some(invoke),
                code,
            })
        }
        None => {
            let code = reason_of(content).ok_or(PduFault::Invalid)?;
            Ok(ReplyView::Reject { invoke: None, code })
        }
    }
}

/// The PDU that the octets are, by its element.
#[tactic(auto, unfolding(crate::specs::ReplyReading::pdu_in))]
fn pdu_of<'a>(bytes: &'a [u8], element: &Tlv<'a>) -> Result<ReplyView<'a>, PduFault>
    ensures { Gives reply_of result (pdu_in (piece bytes.entry) (spot element.now)) }
{
    match element.tag {
        tags::CONFIRMED_RESPONSE => answer_of(element.content),
        tags::CONFIRMED_ERROR => error_of(element.content),
        tags::UNCONFIRMED => Ok(ReplyView::Information(bytes)),
        tags::REJECT => reject_of(element.content),
        tags::CONCLUDE_RESPONSE if element.content.is_empty() => Ok(ReplyView::Concluded),
        _ => Err(PduFault::Invalid),
    }
}

#[tactic(auto, unfolding(crate::specs::ReplyReading::reply_in))]
fn read_reply(bytes: &[u8]) -> Result<ReplyView<'_>, PduFault>
    ensures { Gives reply_of result (reply_in (piece bytes.entry)) }
{
    if !may_begin_pdu(bytes) {
        return Err(PduFault::UnknownPdu);
    }
    let element = whole(bytes).ok_or(PduFault::Invalid)?;
    pdu_of(bytes, &element)
}

/// What a server sends to a client that is connected (ISO 9506-2, MMSpdu), in place: an answer A1, an error A2, an
/// unconfirmed PDU A3, a reject A4 or the end of a conclude, 8C. It takes no memory.
///
/// Of an answer the invoke number and the one element after it are read, and the body where it is that of a read, A4, or
/// of a write, A5. An error has the invoke number and a ServiceError with its class alone, the class and the code below
/// 256. A reject has an optional invoke number and one reason, 81 to 8B, the code below 256.
///
/// Fails with `UnknownPdu` where the first octet begins no PDU; with `Argument` where after an invoke number stands what
/// is not of the form; else with `Invalid`: where `bytes` are not one whole PDU, have no invoke number, or are one that no
/// server sends to a client that is connected.
pub fn reply(bytes: &[u8]) -> Result<ReplyView<'_>, PduFault>
    // What the input spells, else the refusal that it earns.
    ensures reads { Reads (λ r. reply_octets (reply_of r)) result (IsReply bytes.now)
        (IsReplyRefused bytes.now) }
    ensures exact { Gives reply_of result (reply_in (piece bytes.entry)) }
    // What is given back is a slice of the input.
    ensures places { IfOk result (λ r. IsPlaced bytes.entry r) }
{
    read_reply(bytes)
}
