//! The pieces of a stream, fed to its stack.

ghost use Rattle.std.specs.Prelude.{◌≡◌, ◌≤◌, ℕ, [], suc, length, List, Some, IfOk, OnOk};
ghost use Rattle.std.specs.List.{AllByRecursion};
ghost use Rattle.run_record.specs.Grammar.{IsAssoc};
ghost use Rattle.text_words.specs.Values.{option_items};
ghost use Rattle.bay_model.specs.declared.step.Step.{Step};
ghost use Rattle.osi_stack.specs.declared.events.Event.{Event as StackEvent};
ghost use Rattle.osi_stack.specs.Lines.{HasLine};
ghost use Rattle.osi_stack.specs.Sides.{StandsFor};
ghost use Rattle.record_steps.specs.declared.heard.Wired.TheVariants.{Off};
ghost use Rattle.record_steps.specs.Forms as specs;
ghost use Rattle.record_steps.specs.Forms.{HasShape, IsSized, Stands, form_of, fed_form, form_fed};
ghost use Rattle.record_steps.specs.Own.{IsFittingPart};
ghost use Rattle.record_steps.specs.Resolved.{piece_as, fed_as};
ghost use Rattle.record_steps.specs.Streams.{piece_at, events_behind, refusal_behind};
ghost use Rattle.record_steps.specs.Streams.{heard_through, IsWired, made};
ghost use Rattle.record_steps.specs.Telling.{telling};
ghost use Rattle.record_steps.specs.Fed.{IsFed};

use crate::form::Form;
use crate::heard::{Heard, Wired, take_events};
use crate::telling::Told;
use object_model::Model;
use osi_stack::{Events, StackFault, Upper};
use run_record::Kind;
use std::alloc::{AllocError, Global};
use sv_base::AssocNo;
use text_words::hex_octets;

/// The octets of a piece, at least one, if they are spelled in hexadecimal.
fn piece(alloc: Global, hex: &[u8]) -> Result<Option<Vec<u8>>, AllocError>
    ensures { IfOk result (λ r. option_items r ≡ piece_at hex.now) }
{
    let Some(octets) = hex_octets(alloc, hex)? else {
        return Ok(None);
    };
    if octets.is_empty() {
        return Ok(None);
    }
    Ok(Some(octets))
}

/// The association of a stream, whose stack this is.
fn with_stack(wired: Wired, upper: Upper) -> Form
    requires { IsWired wired }
    ensures form { (octets : List ℕ) (events : List StackEvent) → StandsFor upper octets events
        → Stands result (form_of wired octets) }
    ensures off { (octets : List ℕ) → wired ≡ Off → Stands result (form_of wired octets) }
    ensures sized { HasShape result }
{
    match wired {
        Wired::Dialling => Form::Dialling(upper),
        Wired::On(line) => Form::Wire(line, upper),
        Wired::Off => Form::Shut,
    }
}

/// Feeds octets to a stack: adds their events, and gives the refusal, if the stream is refused.
fn feed_stack(
    alloc: Global,
    upper: &mut Upper,
    octets: &[u8],
    events: &mut Events,
) -> Result<Option<StackFault>, AllocError>
    requires { events.old ≡ [] }
    ensures fed { (before : List ℕ) (es : List StackEvent) → StandsFor upper.old before es
        → IfOk result (IsFed upper.new before octets.now es events.new) }
    ensures lines { OnOk result (AllByRecursion HasLine events.new) }
{
    match upper.feed(alloc, octets, events) {
        Ok(()) => Ok(None),
        Err(StackFault::Memory) => Err(AllocError),
        Err(
            StackFault::Refused {
                layer,
                code,
                octets,
            },
        ) => Ok(Some(StackFault::Refused {
            layer,
            code,
            octets,
        })),
    }
}

/// Feeds octets to the stack of an association, and gives what that is then.
fn feed(
    alloc: Global,
    model: &Model,
    a: AssocNo,
    wired: Wired,
    stack: Upper,
    octets: &[u8],
    heard: &mut Vec<Heard>,
) -> Result<Form, AllocError>
    requires number { IsAssoc a }
    requires wired { IsWired wired }
    requires none { heard.old.items ≡ [] }
    ensures heard { (before : List ℕ) (events : List StackEvent) → StandsFor stack before events
        → OnOk result (heard.new.items ≡ heard_through model.now a (events_behind before octets.now)
        (refusal_behind before octets.now) wired) }
    ensures form { (before : List ℕ) (events : List StackEvent) → StandsFor stack before events
        → IfOk result (λ form. Stands form (fed_form wired before (Some octets.now))) }
    ensures sized { IfOk result HasShape }
    ensures fits { OnOk result (AllByRecursion (IsFittingPart model.now) heard.new.items) }
    ensures few { (before : List ℕ) (events : List StackEvent) → StandsFor stack before events
        → OnOk result (made heard.new.items ≤ suc (length octets.now)) }
{
    let mut upper = stack;
    let mut events = Events::from_vec(Vec::new(alloc));
    let fault = feed_stack(alloc, &mut upper, octets, &mut events)?;
    let after = take_events(alloc, model, a, wired, events.as_slice(), fault, heard)?;
    Ok(with_stack(after, upper))
}

/// What a piece of a stream comes to, and what its association is after it.
fn hear_piece(
    alloc: Global,
    model: &Model,
    a: AssocNo,
    wired: Wired,
    upper: Upper,
    hex: &[u8],
    heard: &mut Vec<Heard>,
) -> Result<(Form, Told), AllocError>
    requires number { IsAssoc a }
    requires wired { IsWired wired }
    requires none { heard.old.items ≡ [] }
    ensures told { (before : List ℕ) (events : List StackEvent) (slot : Step)
        → StandsFor upper before events
        → IfOk result (λ r. telling r.1 slot heard.new.items ≡ piece_as model.now wired a before
        (piece_at hex.now)) }
    ensures form { (before : List ℕ) (events : List StackEvent) → StandsFor upper before events
        → IfOk result (λ r. Stands r.0 (fed_form wired before (piece_at hex.now))) }
    ensures sized { IfOk result (λ r. HasShape r.0) }
    ensures fits { OnOk result (AllByRecursion (IsFittingPart model.now) heard.new.items) }
    ensures few { (before : List ℕ) (events : List StackEvent) → StandsFor upper before events
        → OnOk result (made heard.new.items ≤ suc (length hex.now)) }
{
    let Some(octets) = piece(alloc, hex)? else {
        return Ok((with_stack(wired, upper), Told::Refused(Kind::Hex)));
    };
    let form = feed(alloc, model, a, wired, upper, &octets, heard)?;
    Ok((form, Told::Heard))
}

/// What a piece comes to, if its association is one of a stream, and what that is after it.
pub fn hear(
    alloc: Global,
    model: &Model,
    a: AssocNo,
    form: Form,
    hex: &[u8],
    heard: &mut Vec<Heard>,
) -> Result<(Form, Told), AllocError>
    requires number { IsAssoc a }
    requires sized { IsSized form }
    requires none { heard.old.items ≡ [] }
    ensures told { (f : specs.Form) (slot : Step) → Stands form f
        → IfOk result (λ r. telling r.1 slot heard.new.items ≡ fed_as model.now f a hex.now) }
    ensures form { (f : specs.Form) → Stands form f
        → IfOk result (λ r. Stands r.0 (form_fed f (piece_at hex.now))) }
    ensures sized { IfOk result (λ r. IsSized r.0) }
    ensures fits { OnOk result (AllByRecursion (IsFittingPart model.now) heard.new.items) }
    ensures few { OnOk result (made heard.new.items ≤ suc (length hex.now)) }
{
    match form {
        Form::Dialling(upper) => hear_piece(alloc, model, a, Wired::Dialling, upper, hex, heard),
        Form::Wire(line, upper) => hear_piece(alloc, model, a, Wired::On(line), upper, hex, heard),
        Form::Shut => Ok((Form::Shut, Told::Refused(Kind::State))),
        Form::Direct => Ok((Form::Direct, Told::Refused(Kind::State))),
        Form::Mms(size) => Ok((Form::Mms(size), Told::Refused(Kind::State))),
    }
}
