//! Requests of a client as the bay has them (ISO 9506-2, MMSpdu; IEC 61850-8-1, the use of its services).

ghost use Rattle.std.specs.Prelude.{◌≡◌, ◌≢◌, ℕ, List, IfOk, IfSome, IsSome, Some};
ghost use Rattle.sv_base.specs.declared.config.Config.{Config};
ghost use Rattle.mms_pdu.specs.Request.{Request as Asked, IsRequest, IsRequestRefused};
ghost use Rattle.mms_pdu.specs.Request.{request_octets, disregarded};
ghost use Rattle.mms_elements.specs.declared.fault.PduFault.{PduFault};
ghost use Rattle.sv_base.specs.Tree.{Seen};
ghost use Rattle.mms_pdu.specs.RequestReading.{request_at};
ghost use Rattle.mms_pdu.specs.View.{asked as asked_seen};
ghost use Rattle.bay_requests.specs.Requests.{IsSpelled, IsFitting, request_of, request_told};
ghost use Rattle.bay_requests.specs.Requests.{rejection_of};

use crate::services::service_of;
use bay_model::{Request, Service};
use mms_pdu::{PduFault, RequestView, request};
use object_model::Model;
use std::alloc::{AllocError, Global};
use sv_base::rejections;

/// What a client asks; none where it asks nothing.
fn asked_of(
    alloc: Global,
    model: &Model,
    view: RequestView<'_>,
) -> Result<Option<Request>, AllocError>
    ensures { IfOk result (λ r. r ≡ request_of model.now (request_octets (asked_seen view.entry))) }
{
    match view {
        RequestView::Confirmed { invoke, service } => {
            let service = service_of(alloc, model, service)?;
            Ok(Some(Request { invoke, service }))
        }
        RequestView::Conclude => Ok(Some(Request {
            invoke: 0,
            service: Service::Conclude,
        })),
        RequestView::Disregard => Ok(None),
    }
}

/// What a client asks of the bay, by the view that [`request`](mms_pdu::request) gave of it, which isn't
/// `Disregard`.
///
/// Domain-specific names are found in the model. A vmd-specific or aa-specific name of a variable is missing, and that of
/// a named variable list has an empty domain. A missing name with alternate access is missing. The names and values are
/// copied, each once.
pub fn to_request(
    alloc: Global,
    model: &Model,
    view: RequestView<'_>,
) -> Result<Request, AllocError>
    requires spelled { IsSpelled (request_octets (asked_seen view)) }
    requires asks { request_octets (asked_seen view) ≢ disregarded }
    // Want of memory alone is free.
    ensures asked { IfOk result (λ r. Some r ≡ request_of model.now
        (request_octets (asked_seen view.entry))) }
    ensures fits { IfOk result (IsFitting model.now) }
{
    match asked_of(alloc, model, view)? {
        Some(request) => Ok(request),
        None => unreachable!(),
    }
}

/// What is asked of the bay by a PDU that [`request`](mms_pdu::request) refused: to reject it, with its invoke number if
/// it has one, else 0. It takes no memory.
pub fn to_rejection(fault: PduFault) -> Request
    requires { IsSome (rejection_of fault) }
    ensures asked { Some result ≡ rejection_of fault }
    ensures fits { (c : Config) → IsFitting c result }
{
    let (invoke, number) = match fault {
        PduFault::UnknownPdu => (0, rejections::UNKNOWN_PDU),
        PduFault::UnknownService(invoke) => (invoke, rejections::UNKNOWN_SERVICE),
        PduFault::Argument(invoke) => (invoke, rejections::INVALID_ARGUMENT),
        PduFault::Invalid => (0, rejections::INVALID_PDU),
        PduFault::SmallSize(_) => unreachable!(),
    };
    Request {
        invoke,
        service: Service::Reject(number),
    }
}

fn read_pdu(alloc: Global, model: &Model, bytes: &[u8]) -> Result<Option<Request>, AllocError>
    ensures { IfOk result (λ r. r ≡ request_told model.now (request_at bytes.now)) }
{
    match request(bytes) {
        Ok(view) => asked_of(alloc, model, view),
        Err(fault) => Ok(Some(to_rejection(fault))),
    }
}

/// What the octets ask of the bay that a client sent who is connected: the request that they spell, or that they are to
/// be rejected; none where a client asks nothing with such a PDU.
pub fn read_request(
    alloc: Global,
    model: &Model,
    bytes: &[u8],
) -> Result<Option<Request>, AllocError>
    // Each input spells one PDU or is refused for one cause. Want of memory alone is free.
    ensures spelled { (x : Asked (List ℕ) Seen) → IsRequest bytes.now x
        → IfOk result (λ r. r ≡ request_of model.now x) }
    ensures refused { (f : PduFault) → IsRequestRefused bytes.now f
        → IfOk result (λ r. r ≡ rejection_of f) }
    ensures exact { IfOk result (λ r. r ≡ request_told model.now (request_at bytes.now)) }
    ensures fits { IfOk result (λ r. IfSome r (IsFitting model.now)) }
{
    read_pdu(alloc, model, bytes)
}
