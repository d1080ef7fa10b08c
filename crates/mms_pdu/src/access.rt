//! Read-Request and Write-Request (ISO 9506-2).

ghost use Rattle.std.specs.Prelude.{◌≡◌, ◌==◌, length};
ghost use Rattle.std.specs.Option.{option_map};
ghost use Rattle.ber_view.specs.View.{spot};
ghost use Rattle.mms_pdu.specs.Access.{access_at, to_read, read_access_at, read_at};
ghost use Rattle.mms_pdu.specs.Access.{counts_agree_at, to_write, data_list_at, write_at};
ghost use Rattle.mms_pdu.specs.View.{access, service};

use crate::data_list::{DataList, data_of};
use crate::number::truth_of;
use crate::object_name::NameView;
use crate::service::ServiceView;
use crate::variable::{VariableList, named_of, variables_of};
use ber_view::{Elements, Tlv, fields, only};
use mms_elements::tags;

/// Variables, or the name of a list of them (ISO 9506-2, VariableAccessSpecification).
#[derive(Debug, Drop)]
pub(crate) enum AccessView<'a> {
    Variables(VariableList<'a>),
    Named(NameView<'a>),
}

#[tactic(auto, unfolding(crate::specs::Access::access_at))]
pub(crate) fn access_of<'a>(field: &Tlv<'a>) -> Option<AccessView<'a>>
    ensures { option_map access result ≡ access_at (spot field.now) }
{
    if field.tag == tags::LIST_OF_VARIABLE {
        return Some(AccessView::Variables(variables_of(field.content)?));
    }
    Some(AccessView::Named(named_of(tags::VARIABLE_LIST_NAME, field)?))
}

#[tactic(auto, unfolding(crate::specs::Access::read_access_at))]
fn read_access_of<'a>(spec: bool, field: &Tlv<'a>) -> Option<ServiceView<'a>>
    ensures { option_map service result ≡ read_access_at spec (spot field.now) }
{
    if field.tag != tags::ACCESS_SPECIFICATION {
        return None;
    }
    match access_of(&only(field.content)?)? {
        AccessView::Variables(variables) => Some(ServiceView::Read { variables, spec }),
        AccessView::Named(name) => Some(ServiceView::ReadSet { name, spec }),
    }
}

#[tactic(auto, unfolding(crate::specs::Access::read_at))]
pub(crate) fn read_of<'a>(mut fields: Elements<'a>) -> Option<ServiceView<'a>>
    ensures { option_map service result ≡ read_at fields.entry }
{
    let first = fields.next()?;
    let Some(second) = fields.next() else {
        return read_access_of(false, &first);
    };
    if fields.next().is_some() || first.tag != tags::SPECIFICATION_WITH_RESULT {
        return None;
    }
    let spec = truth_of(first.content)?;
    read_access_of(spec, &second)
}

/// Whether as many elements are left of the one as of the other.
fn are_as_many(mut first: Elements<'_>, mut second: Elements<'_>) -> bool
    ensures { result ≡ (length first.entry == length second.entry) }
{
    while first.next().is_some() {
        if second.next().is_none() {
            return false;
        }
    }
    second.next().is_none()
}

#[tactic(auto, unfolding(crate::specs::Access::counts_agree_at))]
fn counts_agree(first: &Tlv<'_>, second: &Tlv<'_>) -> Option<bool>
    ensures { result ≡ counts_agree_at (spot first.now) (spot second.now) }
{
    let first = fields(first.content)?;
    let second = fields(second.content)?;
    Some(are_as_many(first, second))
}

#[tactic(auto, unfolding(crate::specs::Access::data_list_at))]
fn data_list_of<'a>(field: &Tlv<'a>) -> Option<DataList<'a>>
    ensures { result ≡ data_list_at (spot field.now) }
{
    if field.tag != tags::LIST_OF_DATA {
        return None;
    }
    data_of(field.content)
}

#[tactic(auto, unfolding(crate::specs::Access::write_at))]
pub(crate) fn write_of<'a>(mut fields: Elements<'a>) -> Option<ServiceView<'a>>
    ensures { option_map service result ≡ write_at fields.entry }
{
    let first = fields.next()?;
    let second = fields.next()?;
    if fields.next().is_some() {
        return None;
    }
    let access = access_of(&first)?;
    let values = data_list_of(&second)?;
    match access {
        AccessView::Variables(variables) => {
            if !counts_agree(&first, &second)? {
                return None;
            }
            Some(ServiceView::WriteVars { variables, values })
        }
        AccessView::Named(name) => Some(ServiceView::WriteSet { name, values }),
    }
}
