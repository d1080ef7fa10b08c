//! GetNameList-Request (ISO 9506-2).

ghost use Rattle.std.specs.Prelude.{◌≡◌};
ghost use Rattle.std.specs.Option.{option_map};
ghost use Rattle.ber_grammar.specs.Place.{piece};
ghost use Rattle.ber_view.specs.View.{spot};
ghost use Rattle.mms_pdu.specs.NameList.{class_at, inner_scope_at, scope_at, after_at};
ghost use Rattle.mms_pdu.specs.NameList.{name_list_at};
ghost use Rattle.mms_pdu.specs.View.{scope, service};

use crate::number::octet_with;
use crate::service::{ScopeView, ServiceView};
use ber_view::{Elements, Tlv, only};
use mms_elements::tags;

#[tactic(auto, unfolding(crate::specs::NameList::class_at))]
fn class_of(field: &Tlv<'_>) -> Option<u8>
    ensures { result ≡ class_at (spot field.now) }
{
    if field.tag != tags::EXTENDED_OBJECT_CLASS {
        return None;
    }
    octet_with(tags::OBJECT_CLASS, &only(field.content)?)
}

fn inner_scope_of<'a>(field: &Tlv<'a>) -> Option<ScopeView<'a>>
    ensures { option_map scope result ≡ inner_scope_at (spot field.now) }
{
    match field.tag {
        tags::VMD_SCOPE if field.content.is_empty() => Some(ScopeView::Vmd),
        tags::DOMAIN_SCOPE => Some(ScopeView::Domain(field.content)),
        tags::AA_SCOPE if field.content.is_empty() => Some(ScopeView::Association),
        _ => None,
    }
}

#[tactic(auto, unfolding(crate::specs::NameList::scope_at))]
fn scope_of<'a>(field: &Tlv<'a>) -> Option<ScopeView<'a>>
    ensures { option_map scope result ≡ scope_at (spot field.now) }
{
    if field.tag != tags::OBJECT_SCOPE {
        return None;
    }
    inner_scope_of(&only(field.content)?)
}

/// The name after which the list is to begin, if one is given.
fn after_of<'a>(mut fields: Elements<'a>) -> Option<Option<&'a [u8]>>
    ensures { option_map (option_map piece) result ≡ after_at fields.entry }
{
    let Some(field) = fields.next() else {
        return Some(None);
    };
    if field.tag != tags::CONTINUE_AFTER || fields.next().is_some() {
        return None;
    }
    Some(Some(field.content))
}

#[tactic(auto, unfolding(crate::specs::NameList::name_list_at))]
pub(crate) fn name_list_of<'a>(mut fields: Elements<'a>) -> Option<ServiceView<'a>>
    ensures { option_map service result ≡ name_list_at fields.entry }
{
    let first = fields.next()?;
    let second = fields.next()?;
    let class = class_of(&first)?;
    let scope = scope_of(&second)?;
    let after = after_of(fields)?;
    Some(ServiceView::Names {
        class,
        scope,
        after,
    })
}
