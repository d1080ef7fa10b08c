//! The PPDUs that make a connection: CP and CPA (ISO 8823-1, "CP-type" and "CPA-PPDU").

ghost use Rattle.std.specs.Prelude.{◌≡◌, ◌==◌, List, ℕ, Bool, Option, Some, None, bytes_eq};
ghost use Rattle.std.specs.Prelude.{is_some};
ghost use Rattle.std.specs.Option.{option_map};
ghost use Rattle.ber_grammar.specs.Place.{Spot, Piece, piece};
ghost use Rattle.ber_grammar.specs.Reader.{Gives, Reads, and_then};
ghost use Rattle.ber_view.specs.View.{spot};
ghost use Rattle.ber_grammar.specs.Fields.{fields_in, first_with, field_with};
ghost use Rattle.session_pres.specs.declared.codes.TheConstants.{MODE_SELECTOR, MODE_VALUE};
ghost use Rattle.session_pres.specs.Presentation.{Request, IsCp, IsCpRefused, IsAc, IsAcRefused};
ghost use Rattle.session_pres.specs.PresentationReading.{if_octets, normal_at, parameters_in};
ghost use Rattle.session_pres.specs.PresentationReading.{if_context, user_in, cp_at, accepted_at};
ghost use Rattle.session_pres.specs.PresentationReading.{cpa_at, ac_at};
ghost use Rattle.session_pres.specs.View.{request_of};
ghost use Rattle.session_pres.specs.Plain.{asked_of, cp_from, ac_from};

use crate::codes::{
    ACCEPT, CONTEXT_DEFINITION_LIST, CONTEXT_RESULT_LIST, FULLY_ENCODED_DATA, MODE_SELECTOR,
    MODE_VALUE, NORMAL_MODE_PARAMETERS, RESULT, SEQUENCE, SET, TRANSFER_SYNTAX,
};
use crate::contexts::{Contexts, choice, offer_of};
use crate::fault::SpFault;
use crate::pdv::pdv_list_of;
use crate::spdu::connect_data_of;
use ber_view::{Elements, Tlv, fields, first_of, first_with, only_with};
use sv_base::object_ids;

/// What a CP says.
#[derive(Debug, Drop)]
pub struct Cp<'a> {
    /// The number of the context of ACSE.
    pub acse: u32,
    /// The number of the context of MMS.
    pub mms: u32,
    /// Which contexts of the list are accepted.
    pub list: Contexts,
    /// The APDU, one element, a slice of the input.
    pub user: &'a [u8],
}

/// Whether there is a part, and it has these octets.
fn has_octets(part: Option<&[u8]>, octets: &[u8]) -> bool
    ensures { result ≡ is_some (if_octets octets.now (option_map piece part.entry)) }
{
    match part {
        Some(found) => found == octets,
        None => false,
    }
}

/// The mode that the fields of a CP or a CPA say: the content of the first mode-value in the mode-selector.
fn mode_of(set: Elements<'_>) -> Option<&[u8]>
    ensures { option_map piece result ≡ and_then (first_with MODE_SELECTOR set.entry)
        (field_with MODE_VALUE) }
{
    first_with(first_of(set, MODE_SELECTOR)?, MODE_VALUE)
}

/// The parameters of the normal mode of a CP or a CPA.
#[tactic(auto, unfolding(crate::specs::PresentationReading::parameters_in, crate::specs::PresentationReading::normal_at, ber_grammar::specs::Fields::field_with))]
fn parameters_of(ppdu: &[u8]) -> Result<&[u8], SpFault>
    ensures { Gives piece result (parameters_in (piece ppdu.entry)) }
{
    let content = only_with(ppdu, SET).ok_or(SpFault::Parameter)?;
    let set = fields(content).ok_or(SpFault::Parameter)?;
    if !has_octets(mode_of(set), &[1]) {
        return Err(SpFault::Mode);
    }
    first_with(content, NORMAL_MODE_PARAMETERS).ok_or(SpFault::NoAcseContext)
}

/// The value of a PDV, if it stands in this context.
fn value_in(context: u32, pdv: Option<(u32, &[u8])>) -> Option<&[u8]>
    ensures { option_map piece result ≡ if_context context
        (option_map (λ x. (x.0, piece x.1)) pdv.entry) }
{
    match pdv {
        Some((number, value)) if number == context => Some(value),
        _ => None,
    }
}

/// The user data among the parameters, if they stand in this context.
#[tactic(auto, unfolding(crate::specs::PresentationReading::user_in, ber_grammar::specs::Fields::field_with))]
fn user_of(context: u32, parameters: &[u8]) -> Option<&[u8]>
    ensures { option_map piece result ≡ and_then (fields_in (piece parameters.entry))
        (λ fields. user_in fields context) }
{
    let values = first_with(parameters, FULLY_ENCODED_DATA)?;
    value_in(context, pdv_list_of(values))
}

#[tactic(auto, unfolding(crate::specs::PresentationReading::cp_at))]
fn cp_of(ppdu: &[u8]) -> Result<Cp<'_>, SpFault>
    ensures { Gives request_of result (cp_at (piece ppdu.entry)) }
{
    let parameters = parameters_of(ppdu)?;
    let row = fields(parameters).ok_or(SpFault::Parameter)?;
    let list = first_of(row, CONTEXT_DEFINITION_LIST).ok_or(SpFault::NoAcseContext)?;
    let offer = offer_of(list).ok_or(SpFault::Parameter)?;
    let (acse_place, acse) = choice(offer.acse).ok_or(SpFault::NoAcseContext)?;
    let (mms_place, mms) = choice(offer.mms).ok_or(SpFault::NoMmsContext)?;
    let user = user_of(acse, parameters).ok_or(SpFault::Pdv)?;
    let list = Contexts::accepting(offer.count, acse_place, mms_place);
    Ok(Cp {
        acse,
        mms,
        list,
        user,
    })
}

/// What a CP says (ISO 8823-1, "CP-type"): the contexts of ACSE and of MMS, each the first of its abstract syntax in the
/// definition list, and the APDU in the user data. Selectors and other elements are passed over.
///
/// Fails, in this order, with `Parameter` where it isn't one SET of elements, `Mode` where its mode isn't the normal one,
/// `Parameter` where the parameters of the normal mode or the definition list aren't of their form, `NoAcseContext` where
/// there are none of them, or no context of ACSE, or BER isn't one of its transfer syntaxes, `NoMmsContext` where it is so
/// with the context of MMS, and `Pdv` where the user data aren't one PDV of the context of ACSE.
pub fn read_cp(ppdu: &[u8]) -> Result<Cp<'_>, SpFault>
    ensures reads { Reads request_of result (IsCp (piece ppdu.entry))
        (IsCpRefused (piece ppdu.entry)) }
    ensures exact { Gives request_of result (cp_at (piece ppdu.entry)) }
    ensures plain { Gives asked_of result (cp_from ppdu.now) }
{
    cp_of(ppdu)
}

/// Whether a result is there and accepts its context with BER.
#[tactic(auto, unfolding(crate::specs::PresentationReading::accepted_at, ber_grammar::specs::Fields::field_with))]
fn is_accepted(result_of: Option<Tlv<'_>>) -> bool
    ensures { result ≡ is_some (accepted_at (option_map spot result_of.entry)) }
{
    let Some(element) = result_of else {
        return false;
    };
    element.tag == SEQUENCE
        && has_octets(first_with(element.content, RESULT), &[0])
        && has_octets(
            first_with(element.content, TRANSFER_SYNTAX),
            &object_ids::BER,
        )
}

/// The APDU of a CPA that accepts both contexts.
#[tactic(auto, unfolding(crate::specs::PresentationReading::cpa_at))]
fn cpa_of(ppdu: &[u8]) -> Result<&[u8], SpFault>
    ensures { Gives piece result (cpa_at (piece ppdu.entry)) }
{
    let parameters = parameters_of(ppdu)?;
    let row = fields(parameters).ok_or(SpFault::Parameter)?;
    let list = first_of(row, CONTEXT_RESULT_LIST).ok_or(SpFault::NoAcseContext)?;
    let mut results = fields(list).ok_or(SpFault::Parameter)?;
    if !is_accepted(results.next()) {
        return Err(SpFault::NoAcseContext);
    }
    if !is_accepted(results.next()) {
        return Err(SpFault::NoMmsContext);
    }
    user_of(1, parameters).ok_or(SpFault::Pdv)
}

#[tactic(auto, unfolding(crate::specs::PresentationReading::ac_at))]
fn ac_of(spdu: &[u8]) -> Result<&[u8], SpFault>
    ensures { Gives piece result (ac_at (piece spdu.entry)) }
{
    cpa_of(connect_data_of(ACCEPT, spdu)?)
}

/// The APDU in the user data of an ACCEPT (ISO 8327-1), whose CPA (ISO 8823-1, "CPA-PPDU") accepts with BER the two
/// contexts that were proposed: 1, of ACSE, and 3, of MMS.
///
/// Fails with `Spdu` where it isn't an ACCEPT whose length is that of all that follows, `Parameter` where its parameters
/// don't cut or it has no user data, then as [`read_cp`] does, with `NoAcseContext` where the first context, and
/// `NoMmsContext` where the second, wasn't accepted.
pub fn read_ac(spdu: &[u8]) -> Result<&[u8], SpFault>
    ensures reads { Reads piece result (IsAc (piece spdu.entry)) (IsAcRefused (piece spdu.entry)) }
    ensures exact { Gives piece result (ac_at (piece spdu.entry)) }
    ensures plain { Gives (λ apdu. apdu.now) result (ac_from spdu.now) }
{
    ac_of(spdu)
}
