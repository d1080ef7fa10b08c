//! A list of Data in place (ISO 9506-2, listOfData).

ghost use Rattle.std.specs.Prelude.{◌≡◌};
ghost use Rattle.std.specs.Iterator.{YieldsFirstBy, item_count};
ghost use Rattle.ber_grammar.specs.Place.{piece};
ghost use Rattle.ber_view.specs.View.{spot};
ghost use Rattle.mms_pdu.specs.Datum.{datum_at};
ghost use Rattle.mms_pdu.specs.Each.{is_read, are_read, each_in};

use ber_view::{Elements, Tlv, fields};
use mms_data::{DataView, view_data};
use std::marker::Model;

/// The Data of a list that are left (ISO 9506-2, listOfData), from the first.
#[derive(Debug, Drop)]
pub struct DataList<'a> {
    elements: Elements<'a>,
}

impl<'a> Model for DataList<'a> {
    ghost use Rattle.std.specs.Prelude.{List, IsTrue};
    ghost use Rattle.std.specs.List.{filter_map};
    ghost use Rattle.ber_grammar.specs.Place.{Spot};
    ghost use Rattle.mms_pdu.specs.Datum.{datum_at};
    ghost use Rattle.mms_pdu.specs.Each.{are_read};

    ghost Value = { List Spot };

    ghost view = { λ a. filter_map datum_at a.elements };

    ghost invariant = { λ a. IsTrue (are_read datum_at a.elements) };
}

/// Whether an element is Data.
fn is_datum(field: &Tlv<'_>) -> bool
    ensures { result ≡ is_read datum_at (spot field.now) }
{
    view_data(field).is_ok()
}

/// Whether each element is Data.
fn are_data(mut fields: Elements<'_>) -> bool
    ensures { result ≡ are_read datum_at fields.entry }
{
    fields.all(|field| is_datum(&field))
}

/// The Data that a content is.
pub(crate) fn data_of(content: &[u8]) -> Option<DataList<'_>>
    ensures { result ≡ each_in datum_at (piece content.entry) }
{
    if !are_data(fields(content)?) {
        return None;
    }
    Some(DataList {
        elements: fields(content)?,
    })
}

impl<'a> Iterator for DataList<'a> {
    type Item = DataView<'a>;

    ghost next_gives = { YieldsFirstBy (λ d. d) (λ s. s) };

    ghost remaining = { item_count (λ s. s) };

    fn next(&mut self) -> Option<DataView<'a>> {
        let field = self.elements.next()?;
        match view_data(&field) {
            Ok(found) => Some(found),
            Err(_) => unreachable!(),
        }
    }
}
