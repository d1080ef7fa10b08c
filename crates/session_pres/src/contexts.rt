//! The presentation contexts that a CP offers, and which are accepted (ISO 8823-1, "Presentation-context-definition-list").

ghost use Rattle.std.specs.Prelude.{◌≡◌, ◌+◌, ◌==◌, ◌||◌, List, [], ◌++◌, Bool, bytes_eq, length};
ghost use Rattle.std.specs.Prelude.{Option, Some, None, slice_get, IfSome, MatchOption};
ghost use Rattle.std.specs.Option.{option_map};
ghost use Rattle.ber_grammar.specs.Place.{piece, content_piece};
ghost use Rattle.ber_view.specs.View.{spot};
ghost use Rattle.ber_grammar.specs.Fields.{fields_in};
ghost use Rattle.session_pres.specs.ContextList.{Context, flags_from};
ghost use Rattle.session_pres.specs.ContextReading.{has_ber, context_fields_at, definition_at};
ghost use Rattle.session_pres.specs.ContextReading.{chosen_of, offered, context_list_at};
ghost use Rattle.session_pres.specs.ViewOfContexts.{context, candidate, offer, chosen, if_first};

use crate::codes::{INTEGER, OBJECT_IDENTIFIER, SEQUENCE};
use crate::pdv::context_of;
use ber_view::{Elements, Tlv, fields};
use std::marker::Model;
use sv_base::object_ids;

/// Which contexts of a client's definition list are accepted, in its order, seen as the list of these truth values.
#[derive(Debug, Drop)]
pub struct Contexts {
    count: usize,
    acse: usize,
    mms: usize,
}

impl Model for Contexts {
    ghost use Rattle.std.specs.Prelude.{List, Bool};
    ghost use Rattle.session_pres.specs.ContextList.{flags_from};

    ghost Value = { List Bool };

    ghost view = { λ c. flags_from 0 c.count c.acse c.mms };
}

/// One context of the list: its number, its abstract syntax, and whether BER is one of its transfer syntaxes.
#[derive(Clone, Copy)]
pub struct Definition<'a> {
    number: u32,
    syntax: &'a [u8],
    has_ber: bool,
}

/// Whether one of the transfer syntaxes is BER.
fn lists_ber(mut syntaxes: Elements<'_>) -> bool
    ensures { result ≡ has_ber syntaxes.entry }
{
    while let Some(syntax) = syntaxes.next() {
        if syntax.tag == OBJECT_IDENTIFIER && syntax.content == object_ids::BER.as_slice() {
            return true;
        }
    }
    false
}

/// The context of three fields.
#[tactic(auto, unfolding(crate::specs::ContextReading::context_fields_at))]
fn context_of_fields<'a>(mut row: Elements<'a>) -> Option<Definition<'a>>
    ensures { option_map context result ≡ context_fields_at row.entry }
{
    let number = row.next()?;
    let syntax = row.next()?;
    let transfer = row.next()?;
    if row.next().is_some()
        || number.tag != INTEGER
        || syntax.tag != OBJECT_IDENTIFIER
        || transfer.tag != SEQUENCE
    {
        return None;
    }
    Some(Definition {
        number: context_of(number.content)?,
        syntax: syntax.content,
        has_ber: lists_ber(fields(transfer.content)?),
    })
}

/// The context that an element of the list is.
#[tactic(auto, unfolding(crate::specs::ContextReading::definition_at))]
fn definition_of<'a>(element: &Tlv<'a>) -> Option<Definition<'a>>
    ensures { option_map context result ≡ definition_at (spot element.now) }
{
    if element.tag != SEQUENCE {
        return None;
    }
    context_of_fields(fields(element.content)?)
}

/// A context, and its place in the list, from 0.
pub type Candidate<'a> = (usize, Definition<'a>);

/// What is to be known of a list: how many contexts there are, and the first of each abstract syntax.
#[derive(Clone, Copy)]
pub struct Offer<'a> {
    pub count: usize,
    pub acse: Option<Candidate<'a>>,
    pub mms: Option<Candidate<'a>>,
}

/// The first context of an abstract syntax, with one more context of the list.
fn earlier<'a>(
    syntax: &[u8],
    found: Option<Candidate<'a>>,
    next: Candidate<'a>,
) -> Option<Candidate<'a>>
    ensures { option_map candidate result ≡ if_first syntax.now (option_map candidate found.entry)
        (candidate next.entry) }
{
    if found.is_some() {
        return found;
    }
    if next.1.syntax == syntax {
        Some(next)
    } else {
        None
    }
}

/// The contexts of a definition list (ISO 8823-1, "Presentation-context-definition-list").
pub fn offer_of(content: &[u8]) -> Option<Offer<'_>>
    ensures { option_map offer result ≡ option_map offered (context_list_at (piece content.entry)) }
{
    let mut elements = fields(content)?;
    let mut count = 0;
    let mut acse = None;
    let mut mms = None;
    while let Some(element) = elements.next() {
        let definition = definition_of(&element)?;
        acse = earlier(&object_ids::ACSE, acse, (count, definition));
        mms = earlier(&object_ids::MMS, mms, (count, definition));
        count += 1;
    }
    Some(Offer { count, acse, mms })
}

/// A context that is chosen: its place, and its number. None where BER isn't one of its transfer syntaxes.
pub fn choice(found: Option<Candidate<'_>>) -> Option<(usize, u32)>
    ensures { option_map chosen result ≡ chosen_of (option_map candidate found.entry) }
{
    let (place, definition) = found?;
    if !definition.has_ber {
        return None;
    }
    Some((place, definition.number))
}

fn is_one_of(place: usize, acse: usize, mms: usize) -> bool
    ensures { result ≡ (place == acse || place == mms) }
{
    place == acse || place == mms
}

impl Contexts {
    ghost use Rattle.std.specs.Prelude.{◌≡◌, ◌==◌, length, slice_get};
    ghost use Rattle.session_pres.specs.ContextList.{flags_from};

    /// This many contexts, of which those at two places are accepted.
    pub fn accepting(count: usize, acse: usize, mms: usize) -> Self
        ensures { result ≡ flags_from 0 count acse mms }
    {
        Contexts { count, acse, mms }
    }

    /// How many contexts there are.
    pub fn len(&self) -> usize
        ensures { result ≡ length self.now }
    {
        self.count
    }

    /// Whether there is none.
    pub fn is_empty(&self) -> bool
        ensures { result ≡ (length self.now == 0) }
    {
        self.count == 0
    }

    /// Whether the context at `place`, from 0, is accepted; none after the last.
    pub fn get(&self, place: usize) -> Option<bool>
        ensures { result ≡ slice_get self.now place }
    {
        if place >= self.count {
            return None;
        }
        Some(is_one_of(place, self.acse, self.mms))
    }
}
