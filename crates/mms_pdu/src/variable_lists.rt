//! DefineNamedVariableList-Request and DeleteNamedVariableList-Request (ISO 9506-2).

ghost use Rattle.std.specs.Prelude.{◌≡◌, []};
ghost use Rattle.std.specs.Option.{option_map};
ghost use Rattle.ber_view.specs.View.{spot};
ghost use Rattle.mms_pdu.specs.VariableLists.{variable_list_at, define_at, names_at, delete_at};
ghost use Rattle.mms_pdu.specs.View.{service};

use crate::number::octet_with;
use crate::object_name::{NameList, name_of, names_of};
use crate::service::ServiceView;
use crate::variable::{VariableList, variables_of};
use ber_view::{Elements, Tlv};
use mms_elements::tags;

#[tactic(auto, unfolding(crate::specs::VariableLists::variable_list_at))]
fn variable_list_of<'a>(field: &Tlv<'a>) -> Option<VariableList<'a>>
    ensures { result ≡ variable_list_at (spot field.now) }
{
    if field.tag != tags::LIST_OF_VARIABLE {
        return None;
    }
    variables_of(field.content)
}

#[tactic(auto, unfolding(crate::specs::VariableLists::define_at))]
pub(crate) fn define_of<'a>(mut fields: Elements<'a>) -> Option<ServiceView<'a>>
    ensures { option_map service result ≡ define_at fields.entry }
{
    let first = fields.next()?;
    let second = fields.next()?;
    if fields.next().is_some() {
        return None;
    }
    let name = name_of(&first)?;
    let members = variable_list_of(&second)?;
    Some(ServiceView::Define { name, members })
}

/// The names of a list that is absent.
fn no_names<'a>() -> NameList<'a>
    ensures { result ≡ [] }
{
    match names_of(&[]) {
        Some(names) => names,
        None => unreachable!(),
    }
}

#[tactic(auto, unfolding(crate::specs::VariableLists::names_at))]
fn list_of<'a>(mut fields: Elements<'a>) -> Option<NameList<'a>>
    ensures { result ≡ names_at fields.entry }
{
    let Some(field) = fields.next() else {
        return Some(no_names());
    };
    if field.tag != tags::LIST_OF_NAME || fields.next().is_some() {
        return None;
    }
    names_of(field.content)
}

#[tactic(auto, unfolding(crate::specs::VariableLists::delete_at, crate::specs::VariableLists::names_at))]
pub(crate) fn delete_of<'a>(mut fields: Elements<'a>) -> Option<ServiceView<'a>>
    ensures { option_map service result ≡ delete_at fields.entry }
{
    let Some(first) = fields.next() else {
        return Some(ServiceView::Delete {
            scope: 0,
            names: no_names(),
        });
    };
    if first.tag == tags::SCOPE_OF_DELETE {
        let scope = octet_with(tags::SCOPE_OF_DELETE, &first)?;
        let names = list_of(fields)?;
        return Some(ServiceView::Delete { scope, names });
    }
    if first.tag != tags::LIST_OF_NAME || fields.next().is_some() {
        return None;
    }
    let names = names_of(first.content)?;
    Some(ServiceView::Delete { scope: 0, names })
}
