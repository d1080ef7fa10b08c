//! Names of objects in place, and lists of them (ISO 9506-2, ObjectName).

ghost use Rattle.std.specs.Prelude.{◌≡◌};
ghost use Rattle.std.specs.Iterator.{YieldsFirstBy, item_count};
ghost use Rattle.std.specs.Option.{option_map};
ghost use Rattle.ber_grammar.specs.Place.{piece};
ghost use Rattle.ber_view.specs.View.{spot};
ghost use Rattle.mms_pdu.specs.Each.{is_read, are_read, each_in};
ghost use Rattle.mms_pdu.specs.ObjectName.{identifier_at, pair_at, name_at};
ghost use Rattle.mms_pdu.specs.View.{name};

use ber_view::{Elements, Tlv, fields, text};
use mms_elements::tags;
use std::marker::Model;

/// A name of an object (ISO 9506-2, ObjectName), in place.
///
/// The octets of a vmd-specific and of an aa-specific name are any; those of the identifiers of a domain-specific name
/// are 0x20 to 0x7e.
#[derive(Clone, Copy, Debug, PartialEq, Eq)]
pub enum NameView<'a> {
    Vmd(&'a [u8]),
    Domain { domain: &'a [u8], item: &'a [u8] },
    Association(&'a [u8]),
}

#[tactic(auto, unfolding(crate::specs::ObjectName::identifier_at))]
fn identifier_of<'a>(field: &Tlv<'a>) -> Option<&'a [u8]>
    ensures { option_map piece result ≡ identifier_at (spot field.now) }
{
    if field.tag != tags::IDENTIFIER {
        return None;
    }
    text(field.content).ok()?;
    Some(field.content)
}

fn pair_of<'a>(mut fields: Elements<'a>) -> Option<NameView<'a>>
    ensures { option_map name result ≡ pair_at fields.entry }
{
    let first = fields.next()?;
    let second = fields.next()?;
    if fields.next().is_some() {
        return None;
    }
    let domain = identifier_of(&first)?;
    let item = identifier_of(&second)?;
    Some(NameView::Domain { domain, item })
}

/// The name that an element is.
#[tactic(auto, unfolding(crate::specs::ObjectName::name_at))]
pub(crate) fn name_of<'a>(field: &Tlv<'a>) -> Option<NameView<'a>>
    ensures { option_map name result ≡ name_at (spot field.now) }
{
    match field.tag {
        tags::VMD_SPECIFIC => Some(NameView::Vmd(field.content)),
        tags::DOMAIN_SPECIFIC => pair_of(fields(field.content)?),
        tags::AA_SPECIFIC => Some(NameView::Association(field.content)),
        _ => None,
    }
}

/// The names of a list that are left (ISO 9506-2, listOfVariableListName), from the first.
#[derive(Debug, Drop)]
pub struct NameList<'a> {
    elements: Elements<'a>,
}

impl<'a> Model for NameList<'a> {
    ghost use Rattle.std.specs.Prelude.{List, IsTrue};
    ghost use Rattle.std.specs.List.{filter_map};
    ghost use Rattle.ber_grammar.specs.Place.{Piece};
    ghost use Rattle.mms_pdu.specs.ObjectName.{Name, name_at};
    ghost use Rattle.mms_pdu.specs.Each.{are_read};

    ghost Value = { List (Name Piece) };

    ghost view = { λ a. filter_map name_at a.elements };

    ghost invariant = { λ a. IsTrue (are_read name_at a.elements) };
}

/// Whether an element is a name.
fn is_name(field: &Tlv<'_>) -> bool
    ensures { result ≡ is_read name_at (spot field.now) }
{
    name_of(field).is_some()
}

/// Whether each element is a name.
fn are_names(mut fields: Elements<'_>) -> bool
    ensures { result ≡ are_read name_at fields.entry }
{
    fields.all(|field| is_name(&field))
}

/// The names that a content is.
pub(crate) fn names_of(content: &[u8]) -> Option<NameList<'_>>
    ensures { result ≡ each_in name_at (piece content.entry) }
{
    if !are_names(fields(content)?) {
        return None;
    }
    Some(NameList {
        elements: fields(content)?,
    })
}

impl<'a> Iterator for NameList<'a> {
    type Item = NameView<'a>;

    ghost next_gives = { YieldsFirstBy name (λ s. s) };

    ghost remaining = { item_count (λ s. s) };

    fn next(&mut self) -> Option<NameView<'a>> {
        let field = self.elements.next()?;
        match name_of(&field) {
            Some(found) => Some(found),
            None => unreachable!(),
        }
    }
}
