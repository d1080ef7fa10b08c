//! What a confirmed service asks, by its element (ISO 9506-2, ConfirmedServiceRequest).

ghost use Rattle.std.specs.Prelude.{◌≡◌};
ghost use Rattle.std.specs.Option.{option_map};
ghost use Rattle.ber_view.specs.View.{spot};
ghost use Rattle.mms_pdu.specs.Services.{status_at, identify_at, type_of_node_at, set_of_at};
ghost use Rattle.mms_pdu.specs.Services.{service_at};
ghost use Rattle.mms_pdu.specs.View.{service};

use crate::access::{read_of, write_of};
use crate::name_list::name_list_of;
use crate::number::truth_of;
use crate::object_name::name_of;
use crate::service::ServiceView;
use crate::variable::named_of;
use crate::variable_lists::{define_of, delete_of};
use ber_view::{Tlv, fields, only};
use mms_elements::tags;

fn status_of<'a>(field: &Tlv<'a>) -> Option<ServiceView<'a>>
    ensures { option_map service result ≡ status_at (spot field.now) }
{
    truth_of(field.content)?;
    Some(ServiceView::Status)
}

fn identify_of<'a>(field: &Tlv<'a>) -> Option<ServiceView<'a>>
    ensures { option_map service result ≡ identify_at (spot field.now) }
{
    if !field.content.is_empty() {
        return None;
    }
    Some(ServiceView::Identify)
}

fn type_of_node_of<'a>(field: &Tlv<'a>) -> Option<ServiceView<'a>>
    ensures { option_map service result ≡ type_of_node_at (spot field.now) }
{
    let inner = only(field.content)?;
    let name = named_of(tags::NAME, &inner)?;
    Some(ServiceView::TypeOfNode(name))
}

fn set_of<'a>(field: &Tlv<'a>) -> Option<ServiceView<'a>>
    ensures { option_map service result ≡ set_of_at (spot field.now) }
{
    let inner = only(field.content)?;
    let name = name_of(&inner)?;
    Some(ServiceView::SetOf(name))
}

/// What an element asks that is a confirmed service.
#[tactic(auto, unfolding(crate::specs::Services::service_at))]
pub(crate) fn service_of<'a>(field: &Tlv<'a>) -> Option<ServiceView<'a>>
    ensures { option_map service result ≡ service_at (spot field.now) }
{
    match field.tag {
        tags::STATUS => status_of(field),
        tags::GET_NAME_LIST => name_list_of(fields(field.content)?),
        tags::IDENTIFY => identify_of(field),
        tags::READ => read_of(fields(field.content)?),
        tags::WRITE => write_of(fields(field.content)?),
        tags::GET_ATTRIBUTES => type_of_node_of(field),
        tags::DEFINE_LIST => define_of(fields(field.content)?),
        tags::GET_LIST_ATTRIBUTES => set_of(field),
        tags::DELETE_LIST => delete_of(fields(field.content)?),
        _ => None,
    }
}
