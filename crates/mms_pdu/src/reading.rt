//! What a client asks, read (ISO 9506-2, MMSpdu).

ghost use Rattle.std.specs.Prelude.{◌≡◌};
ghost use Rattle.std.specs.Option.{option_map};
ghost use Rattle.ber_grammar.specs.Place.{piece};
ghost use Rattle.ber_grammar.specs.Reader.{Gives, Reads};
ghost use Rattle.ber_view.specs.View.{spot};
ghost use Rattle.mms_pdu.specs.Request.{IsRequest, IsRequestRefused, request_octets};
ghost use Rattle.mms_pdu.specs.Request.{is_disregarded, is_pdu, may_begin};
ghost use Rattle.mms_pdu.specs.RequestReading.{invoke_in, service_in, pdu_at, request_in};
ghost use Rattle.mms_pdu.specs.RequestReading.{request_at};
ghost use Rattle.mms_pdu.specs.Services.{is_service};
ghost use Rattle.mms_pdu.specs.View.{asked};

use crate::confirmed::service_of;
use crate::service::ServiceView;
use ber_view::{Tlv, first, only, uint};
use mms_elements::{PduFault, tags};

/// A PDU that a client sent (ISO 9506-2, MMSpdu), with names and Data in place.
#[derive(Debug, Drop)]
pub enum RequestView<'a> {
    /// A confirmed service, with the number under which it is to be answered.
    Confirmed {
        invoke: u32,
        service: ServiceView<'a>,
    },
    /// The client asks to conclude.
    Conclude,
    /// A whole PDU with which a client asks nothing, as an answer.
    Disregard,
}

/// Whether a tag of one octet is of a PDU with which a client asks nothing.
fn is_disregarded_tag(tag: u32) -> bool
    ensures { result ≡ is_disregarded tag }
{
    matches!(
        tag,
        tags::CONFIRMED_RESPONSE
            | tags::CONFIRMED_ERROR
            | tags::UNCONFIRMED
            | tags::REJECT
            | tags::INITIATE_RESPONSE
            | tags::CONCLUDE_RESPONSE
    )
}

/// Whether a tag of one octet is of a PDU that is known.
fn is_pdu_tag(tag: u32) -> bool
    ensures { result ≡ is_pdu tag }
{
    is_disregarded_tag(tag)
        || tag == tags::CONFIRMED_REQUEST
        || tag == tags::CONCLUDE_REQUEST
        || tag == tags::INITIATE_REQUEST
}

/// Whether a tag of one octet is of a service that is known.
fn is_service_tag(tag: u32) -> bool
    ensures { result ≡ is_service tag }
{
    matches!(
        tag,
        tags::STATUS
            | tags::GET_NAME_LIST
            | tags::IDENTIFY
            | tags::READ
            | tags::WRITE
            | tags::GET_ATTRIBUTES
            | tags::DEFINE_LIST
            | tags::GET_LIST_ATTRIBUTES
            | tags::DELETE_LIST
    )
}

/// Whether no PDU that is known begins otherwise.
pub(crate) fn may_begin_pdu(bytes: &[u8]) -> bool
    ensures { result ≡ may_begin is_pdu bytes.now }
{
    match bytes {
        [] => true,
        [octet, ..] => is_pdu_tag(u32::from(*octet)),
    }
}

/// Whether no service that is known begins otherwise.
fn may_begin_service(bytes: &[u8]) -> bool
    ensures { result ≡ may_begin is_service bytes.now }
{
    match bytes {
        [] => true,
        [octet, ..] => is_service_tag(u32::from(*octet)),
    }
}

/// The invoke number, an INTEGER of 32 bits without sign, and the octets after it.
#[tactic(auto, unfolding(crate::specs::RequestReading::invoke_in, mms_elements::specs::Invoke::below_at))]
fn invoke_of(content: &[u8]) -> Option<(u32, &[u8])>
    ensures { option_map (λ x. (x.0, piece x.1)) result ≡ invoke_in (piece content.entry) }
{
    let (number, rest) = first(content).ok()?;
    if number.tag != 2 {
        return None;
    }
    let invoke = u32::try_from(uint(number.content).ok()?).ok()?;
    Some((invoke, rest))
}

/// What the octets after an invoke number ask.
#[tactic(auto, unfolding(crate::specs::RequestReading::service_in))]
fn confirmed_of(invoke: u32, bytes: &[u8]) -> Result<RequestView<'_>, PduFault>
    ensures { Gives asked result (service_in invoke (piece bytes.entry)) }
{
    if !may_begin_service(bytes) {
        return Err(PduFault::UnknownService(invoke));
    }
    let Some(field) = only(bytes) else {
        return Err(PduFault::Argument(invoke));
    };
    match service_of(&field) {
        Some(service) => Ok(RequestView::Confirmed { invoke, service }),
        None => Err(PduFault::Argument(invoke)),
    }
}

/// What an element asks that is a PDU.
#[tactic(auto, unfolding(crate::specs::RequestReading::pdu_at))]
fn pdu_of<'a>(pdu: &Tlv<'a>) -> Result<RequestView<'a>, PduFault>
    ensures { Gives asked result (pdu_at (spot pdu.now)) }
{
    if pdu.tag == tags::CONFIRMED_REQUEST {
        return match invoke_of(pdu.content) {
            Some((invoke, rest)) => confirmed_of(invoke, rest),
            None => Err(PduFault::Invalid),
        };
    }
    if pdu.tag == tags::CONCLUDE_REQUEST && pdu.content.is_empty() {
        return Ok(RequestView::Conclude);
    }
    if is_disregarded_tag(pdu.tag) {
        return Ok(RequestView::Disregard);
    }
    Err(PduFault::Invalid)
}

#[tactic(auto, unfolding(crate::specs::RequestReading::request_in))]
fn read_request(bytes: &[u8]) -> Result<RequestView<'_>, PduFault>
    ensures { Gives asked result (request_in (piece bytes.entry)) }
{
    if !may_begin_pdu(bytes) {
        return Err(PduFault::UnknownPdu);
    }
    match only(bytes) {
        Some(pdu) => pdu_of(&pdu),
        None => Err(PduFault::Invalid),
    }
}

/// What `bytes` ask, which a client sent on a connection (ISO 9506-2, MMSpdu): a confirmed service with its invoke
/// number, to conclude, or nothing.
///
/// The names and Data are slices of `bytes`. Lengths may be longer than needed, a boolean is true at any octet but 0,
/// and a number has one to nine octets. An invoke number is 0 to 4294967295; an object class and a scope of deletion
/// are 0 to 255. Lists may be empty. It takes no memory.
///
/// Fails with `UnknownPdu` where the first octet begins no PDU that is known; then with `Invalid` where `bytes` are not
/// one whole element, where no invoke number begins a confirmed request, where a conclude request has a content, and at
/// an initiate request; then with `UnknownService` where the first octet after the invoke number begins no service
/// that is known; and then with `Argument` where what stands there is not one whole element of the service's form, has
/// Data that [`read_data`](mms_data::read_data) refuses for another cause than out of memory, or has values of
/// another number than variables.
pub fn request(bytes: &[u8]) -> Result<RequestView<'_>, PduFault>
    // What the input spells, else the refusal that it earns.
    ensures reads { Reads (λ x. request_octets (asked x)) result (IsRequest bytes.now)
        (IsRequestRefused bytes.now) }
    ensures exact { Gives (λ x. request_octets (asked x)) result (request_at bytes.now) }
    // Names and Data lie in the input, each where the grammar has it.
    ensures places { Gives asked result (request_in (piece bytes.entry)) }
{
    read_request(bytes)
}
