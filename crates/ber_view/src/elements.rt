//! A row of elements, one after another.

ghost use Rattle.std.specs.Prelude.{◌≡◌, ◌<◌, ℕ, List, length, IfOk};
ghost use Rattle.std.specs.Iterator.{YieldsFirstBy, item_count};
ghost use Rattle.ber_grammar.specs.Element.{Element, IsRow, IsRowRefused};
ghost use Rattle.ber_grammar.specs.Place.{placed, elements};
ghost use Rattle.ber_grammar.specs.Reader.{Gives, Reads};
ghost use Rattle.ber_grammar.specs.Rows.{parts_at};
ghost use Rattle.ber_view.specs.View.{spot};

use crate::element::{Tlv, first};
use ber_grammar::BerFault;
use std::marker::Model;

/// The elements of a row that are left, from the first, each with where its content lies.
#[derive(Debug, Drop)]
pub struct Elements<'a> {
    rest: &'a [u8],
}

impl<'a> Model for Elements<'a> {
    ghost use Rattle.std.specs.Prelude.{List};
    ghost use Rattle.ber_grammar.specs.Element.{IsRow};
    ghost use Rattle.ber_grammar.specs.Rows.{row_of};
    ghost use Rattle.ber_grammar.specs.Place.{Spot, placed};

    ghost Value = { List Spot };

    ghost view = { λ a. placed a.rest.ref_ptr (row_of a.rest.now) };

    ghost invariant = { λ a. IsRow a.rest.now (row_of a.rest.now) };
}

fn read_parts(content: &[u8]) -> Result<Elements<'_>, BerFault>
    ensures exact { Gives elements result (parts_at content.now) }
    ensures places { IfOk result (λ x. x ≡ placed content.entry.ref_ptr (elements x)) }
{
    let mut rest = content;
    while !rest.is_empty() {
        let (_, after) = first(rest)?;
        rest = after;
    }
    Ok(Elements { rest: content })
}

/// The elements of `content`, the content of a constructed element (X.690, 8.1.4), which is a row of whole elements
/// to its end. No octet is an empty row.
///
/// Fails as [`first`] does at the first element that is not whole.
pub fn parts(content: &[u8]) -> Result<Elements<'_>, BerFault>
    // The elements where the content is a row, else the refusal that the content earns.
    ensures reads { Reads elements result (IsRow content.now) (IsRowRefused content.now) }
    ensures exact { Gives elements result (parts_at content.now) }
    // Their contents are slices of the content, each where the elements before it and its own head leave it.
    ensures places { IfOk result (λ x. x ≡ placed content.entry.ref_ptr (elements x)) }
{
    read_parts(content)
}

impl<'a> Iterator for Elements<'a> {
    type Item = Tlv<'a>;

    ghost next_gives = { YieldsFirstBy spot (λ s. s) };

    ghost remaining = { item_count (λ s. s) };

    fn next(&mut self) -> Option<Tlv<'a>> {
        let here = self.rest;
        if here.is_empty() {
            return None;
        }
        match first(here) {
            Ok((element, after)) => {
                self.rest = after;
                Some(element)
            }
            Err(_) => unreachable!(),
        }
    }
}
