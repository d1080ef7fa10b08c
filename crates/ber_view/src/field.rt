//! The fields of a content (X.690, 8.1.4), and one of them. Each reader gives `None` where its input is not of its form.

ghost use Rattle.std.specs.Prelude.{◌≡◌};
ghost use Rattle.std.specs.Option.{option_map};
ghost use Rattle.ber_grammar.specs.Fields.{fields_in, only_in, with_tag, only_with, first_with};
ghost use Rattle.ber_grammar.specs.Fields.{field_with, whole_at, whole_in};
ghost use Rattle.ber_grammar.specs.Place.{piece};
ghost use Rattle.ber_view.specs.View.{element, spot};

use crate::element::{Tlv, first};
use crate::elements::{Elements, parts};

/// The elements that a content is, or `None` where it is no row of whole elements.
#[tactic(auto, unfolding(ber_grammar::specs::Fields::fields_in))]
pub fn fields(content: &[u8]) -> Option<Elements<'_>>
    ensures { result ≡ fields_in (piece content.entry) }
{
    parts(content).ok()
}

/// The only element of a content.
#[tactic(auto, unfolding(ber_grammar::specs::Fields::only_in))]
pub fn only(content: &[u8]) -> Option<Tlv<'_>>
    ensures { option_map spot result ≡ only_in (piece content.entry) }
{
    let mut fields = fields(content)?;
    let found = fields.next()?;
    if fields.next().is_some() {
        return None;
    }
    Some(found)
}

/// The content of a field, if it has this tag.
pub fn tagged<'a>(field: &Tlv<'a>, tag: u32) -> Option<&'a [u8]>
    ensures { option_map piece result ≡ with_tag tag (spot field.now) }
{
    if field.tag != tag {
        return None;
    }
    Some(field.content)
}

/// The content of the only element of a content, if it has this tag.
#[tactic(auto, unfolding(ber_grammar::specs::Fields::only_with))]
pub fn only_with(content: &[u8], tag: u32) -> Option<&[u8]>
    ensures { option_map piece result ≡ only_with tag (piece content.entry) }
{
    let field = only(content)?;
    tagged(&field, tag)
}

/// The content of the first of the fields with this tag. Fields with other tags are passed over.
pub fn first_of<'a>(mut fields: Elements<'a>, tag: u32) -> Option<&'a [u8]>
    ensures { option_map piece result ≡ first_with tag fields.entry }
{
    while let Some(field) = fields.next() {
        if field.tag == tag {
            return Some(field.content);
        }
    }
    None
}

/// The content of the first element of a content with this tag, where the content is a row of whole elements.
#[tactic(auto, unfolding(ber_grammar::specs::Fields::field_with))]
pub fn first_with(content: &[u8], tag: u32) -> Option<&[u8]>
    ensures { option_map piece result ≡ field_with tag (piece content.entry) }
{
    first_of(fields(content)?, tag)
}

/// The one element that the octets are, to their end.
#[tactic(auto, unfolding(ber_grammar::specs::Fields::whole_at))]
pub fn whole(bytes: &[u8]) -> Option<Tlv<'_>>
    ensures exact { option_map element result ≡ whole_at bytes.now }
    ensures places { option_map spot result ≡ whole_in (piece bytes.entry) }
{
    let (element, rest) = first(bytes).ok()?;
    if !rest.is_empty() {
        return None;
    }
    Some(element)
}
