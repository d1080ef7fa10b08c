//! Variables in place, and lists of them (ISO 9506-2, listOfVariable).

ghost use Rattle.std.specs.Prelude.{◌≡◌};
ghost use Rattle.std.specs.Iterator.{YieldsFirstBy, item_count};
ghost use Rattle.std.specs.Option.{option_map};
ghost use Rattle.ber_grammar.specs.Place.{piece};
ghost use Rattle.ber_view.specs.View.{spot};
ghost use Rattle.mms_pdu.specs.Each.{is_read, are_read, each_in};
ghost use Rattle.mms_pdu.specs.Variable.{alternate_at, named_at, specified_at, variable_at};
ghost use Rattle.mms_pdu.specs.View.{name, variable};

use crate::object_name::{NameView, name_of};
use ber_view::{Elements, Tlv, fields, only};
use mms_elements::tags;
use std::marker::Model;

/// A variable of a list (ISO 9506-2, an item of listOfVariable), in place.
#[derive(Clone, Copy, Debug, PartialEq, Eq)]
pub struct VariableView<'a> {
    /// Its name.
    pub name: NameView<'a>,
    /// Whether alternate access is asked for.
    pub alternate: bool,
}

/// The name that an element of this tag holds.
#[tactic(auto, unfolding(crate::specs::Variable::named_at))]
pub(crate) fn named_of<'a>(tag: u32, field: &Tlv<'a>) -> Option<NameView<'a>>
    ensures { option_map name result ≡ named_at tag (spot field.now) }
{
    if field.tag != tag {
        return None;
    }
    name_of(&only(field.content)?)
}

/// Whether alternate access is asked for after the name.
fn alternate_of(mut fields: Elements<'_>) -> Option<bool>
    ensures { result ≡ alternate_at fields.entry }
{
    let Some(field) = fields.next() else {
        return Some(false);
    };
    if field.tag != tags::ALTERNATE_ACCESS || fields.next().is_some() {
        return None;
    }
    Some(true)
}

#[tactic(auto, unfolding(crate::specs::Variable::specified_at))]
fn specified_of<'a>(mut fields: Elements<'a>) -> Option<VariableView<'a>>
    ensures { option_map variable result ≡ specified_at fields.entry }
{
    let first = fields.next()?;
    let name = named_of(tags::NAME, &first)?;
    let alternate = alternate_of(fields)?;
    Some(VariableView { name, alternate })
}

/// The variable that an element is.
#[tactic(auto, unfolding(crate::specs::Variable::variable_at))]
pub(crate) fn variable_of<'a>(field: &Tlv<'a>) -> Option<VariableView<'a>>
    ensures { option_map variable result ≡ variable_at (spot field.now) }
{
    if field.tag != tags::VARIABLE {
        return None;
    }
    specified_of(fields(field.content)?)
}

/// The variables of a list that are left (ISO 9506-2, listOfVariable), from the first.
#[derive(Debug, Drop)]
pub struct VariableList<'a> {
    elements: Elements<'a>,
}

impl<'a> Model for VariableList<'a> {
    ghost use Rattle.std.specs.Prelude.{List, IsTrue};
    ghost use Rattle.std.specs.List.{filter_map};
    ghost use Rattle.ber_grammar.specs.Place.{Piece};
    ghost use Rattle.mms_pdu.specs.Variable.{Variable, variable_at};
    ghost use Rattle.mms_pdu.specs.Each.{are_read};

    ghost Value = { List (Variable Piece) };

    ghost view = { λ a. filter_map variable_at a.elements };

    ghost invariant = { λ a. IsTrue (are_read variable_at a.elements) };
}

/// Whether an element is a variable.
fn is_variable(field: &Tlv<'_>) -> bool
    ensures { result ≡ is_read variable_at (spot field.now) }
{
    variable_of(field).is_some()
}

/// Whether each element is a variable.
fn are_variables(mut fields: Elements<'_>) -> bool
    ensures { result ≡ are_read variable_at fields.entry }
{
    fields.all(|field| is_variable(&field))
}

/// The variables that a content is.
pub(crate) fn variables_of(content: &[u8]) -> Option<VariableList<'_>>
    ensures { result ≡ each_in variable_at (piece content.entry) }
{
    if !are_variables(fields(content)?) {
        return None;
    }
    Some(VariableList {
        elements: fields(content)?,
    })
}

impl<'a> Iterator for VariableList<'a> {
    type Item = VariableView<'a>;

    ghost next_gives = { YieldsFirstBy variable (λ s. s) };

    ghost remaining = { item_count (λ s. s) };

    fn next(&mut self) -> Option<VariableView<'a>> {
        let field = self.elements.next()?;
        match variable_of(&field) {
            Some(found) => Some(found),
            None => unreachable!(),
        }
    }
}
