//! How an association begins, read (ISO 9506-2, Initiate-RequestPDU and Initiate-ResponsePDU).

ghost use Rattle.std.specs.Prelude.{◌≡◌, ◌∷◌, IfSome, Some, List};
ghost use Rattle.ber_grammar.specs.Place.{elements};
ghost use Rattle.ber_grammar.specs.Reader.{Gives, Reads};
ghost use Rattle.ber_view.specs.View.{element};
ghost use Rattle.mms_initiate.specs.Initiate.{IsAccepted, IsInitiateRefused};
ghost use Rattle.mms_initiate.specs.InitiateReading.{are_details, detail_at, nesting_at, calls_at};
ghost use Rattle.mms_initiate.specs.InitiateReading.{fields_at, proposal_at, judged, initiate_at};
ghost use Rattle.mms_elements.specs.declared.tags.TheConstants.{INITIATE_REQUEST};
ghost use Rattle.mms_elements.specs.declared.tags.TheConstants.{INITIATE_RESPONSE};

use ber_view::{Elements, Tlv, parts, whole};
use mms_elements::{PduFault, number_of, tags};

/// What an initiate proposes, or what its answer accepts (ISO 9506-2, Initiate-RequestPDU and Initiate-ResponsePDU).
#[derive(Clone, Copy, Debug, PartialEq, Eq)]
pub struct Initiate {
    /// The greatest size of a PDU in octets; 65000 where none was said.
    pub size: u32,
    /// How many confirmed requests of the calling side may wait for their answers.
    pub calling: u32,
    /// How many confirmed requests of the called side may wait for their answers.
    pub called: u32,
    /// How deep a structure may lie in another; 10 where nothing was said.
    pub nesting: u32,
}

/// Whether these are a version, parameters and services.
fn has_details(mut fields: Elements<'_>) -> bool
    ensures { result ≡ are_details (elements fields.entry) }
{
    let Some(version) = fields.next() else {
        return false;
    };
    let Some(parameters) = fields.next() else {
        return false;
    };
    let Some(services) = fields.next() else {
        return false;
    };
    fields.next().is_none()
        && version.tag == tags::VERSION_NUMBER
        && parameters.tag == tags::PARAMETER_CBB
        && services.tag == tags::SERVICES_SUPPORTED
}

/// The proposal, where the field is the last and of its form.
#[tactic(auto, unfolding(crate::specs::InitiateReading::detail_at))]
fn with_detail(proposal: Initiate, field: &Tlv<'_>, mut fields: Elements<'_>) -> Option<Initiate>
    ensures { result ≡ detail_at proposal (element field.now ∷ elements fields.entry) }
{
    if fields.next().is_some() || field.tag != tags::INIT_DETAIL {
        return None;
    }
    let details = parts(field.content).ok()?;
    if !has_details(details) {
        return None;
    }
    Some(proposal)
}

/// The proposal of these numbers, with the nesting and the detail that follow.
#[tactic(auto, unfolding(crate::specs::InitiateReading::nesting_at, crate::specs::InitiateReading::detail_at))]
fn with_nesting(size: u32, calling: u32, called: u32, mut fields: Elements<'_>) -> Option<Initiate>
    ensures { result ≡ nesting_at size calling called (elements fields.entry) }
{
    let field = fields.next()?;
    if field.tag != tags::NESTING_LEVEL {
        let proposal = Initiate {
            size,
            calling,
            called,
            nesting: 10,
        };
        return with_detail(proposal, &field, fields);
    }
    let nesting = number_of(tags::NESTING_LEVEL, &field)?;
    let detail = fields.next()?;
    let proposal = Initiate {
        size,
        calling,
        called,
        nesting,
    };
    with_detail(proposal, &detail, fields)
}

/// The proposal of this size, with the fields from this one on.
#[tactic(auto, unfolding(crate::specs::InitiateReading::calls_at))]
fn with_calls(size: u32, field: &Tlv<'_>, mut fields: Elements<'_>) -> Option<Initiate>
    ensures { result ≡ calls_at size (element field.now ∷ elements fields.entry) }
{
    let second = fields.next()?;
    let calling = number_of(tags::OUTSTANDING_CALLING, field)?;
    let called = number_of(tags::OUTSTANDING_CALLED, &second)?;
    with_nesting(size, calling, called, fields)
}

#[tactic(auto, unfolding(crate::specs::InitiateReading::fields_at, crate::specs::InitiateReading::calls_at))]
fn fields_of(mut fields: Elements<'_>) -> Option<Initiate>
    ensures { result ≡ fields_at (elements fields.entry) }
{
    let field = fields.next()?;
    if field.tag != tags::LOCAL_DETAIL {
        return with_calls(65000, &field, fields);
    }
    let size = number_of(tags::LOCAL_DETAIL, &field)?;
    let calling = fields.next()?;
    with_calls(size, &calling, fields)
}

fn proposal_of(tag: u32, bytes: &[u8]) -> Option<Initiate>
    ensures { result ≡ proposal_at tag bytes.now }
{
    let element = whole(bytes)?;
    if element.tag != tag {
        return None;
    }
    fields_of(parts(element.content).ok()?)
}

/// The proposal, where its size is not too small.
fn judge(proposal: Option<Initiate>) -> Result<Initiate, PduFault>
    ensures { Gives (λ x. x) result (judged proposal) }
{
    match proposal {
        Some(proposal) => {
            if proposal.size < 1024 {
                return Err(PduFault::SmallSize(proposal.size));
            }
            Ok(proposal)
        }
        None => Err(PduFault::Invalid),
    }
}

#[tactic(auto, unfolding(crate::specs::InitiateReading::initiate_at))]
fn read_tagged(tag: u32, bytes: &[u8]) -> Result<Initiate, PduFault>
    ensures { Gives (λ x. x) result (initiate_at tag bytes.now) }
{
    judge(proposal_of(tag, bytes))
}

/// What the initiate request that `bytes` are proposes (ISO 9506-2, Initiate-RequestPDU, tag A8).
///
/// The fields are, in this order, a size 80, which counts as 65000 where it is left out; the outstanding calls 81 and 82;
/// a nesting 83, which counts as 10 where it is left out; and A4 with a version 80, parameters 81 and services 82, whose
/// contents are not looked into. Numbers are those of 32 bits.
///
/// Fails with `SmallSize` where the size is below 1024, and with `Invalid` where `bytes` are not one whole element of
/// this form.
pub fn read_initiate(bytes: &[u8]) -> Result<Initiate, PduFault>
    // A proposal where the input spells it, else the refusal that the input earns.
    ensures reads { Reads (λ x. x) result (IsAccepted INITIATE_REQUEST bytes.now)
        (IsInitiateRefused INITIATE_REQUEST bytes.now) }
    ensures exact { Gives (λ x. x) result (initiate_at INITIATE_REQUEST bytes.now) }
{
    read_tagged(tags::INITIATE_REQUEST, bytes)
}

/// What the initiate answer that `bytes` are accepts (ISO 9506-2, Initiate-ResponsePDU, tag A9). The form and the
/// refusals are those of [`read_initiate`].
pub fn read_initiate_answer(bytes: &[u8]) -> Result<Initiate, PduFault>
    ensures reads { Reads (λ x. x) result (IsAccepted INITIATE_RESPONSE bytes.now)
        (IsInitiateRefused INITIATE_RESPONSE bytes.now) }
    ensures exact { Gives (λ x. x) result (initiate_at INITIATE_RESPONSE bytes.now) }
{
    read_tagged(tags::INITIATE_RESPONSE, bytes)
}
