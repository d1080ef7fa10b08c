//! What the events of a stream come to: lines of the stack's own, and steps of the association.

ghost use Rattle.std.specs.Prelude.{◌≡◌, ◌++◌, ◌∷◌, [], IfOk, OnOk};
ghost use Rattle.std.specs.List.{AllByRecursion};
ghost use Rattle.run_record.specs.Grammar.{IsAssoc};
ghost use Rattle.osi_stack.specs.Lines.{HasLine};
ghost use Rattle.stream_lines.specs.Lines.{frame_line, released_line, aborted_line};
ghost use Rattle.record_steps.specs.declared.heard.Heard.TheVariants.{Tells, Makes};
ghost use Rattle.record_steps.specs.Asks.{asked_by};
ghost use Rattle.record_steps.specs.Own.{IsFittingPart, own_opening};
ghost use Rattle.record_steps.specs.Streams.{IsWired, wired_by, wired_through, lost_by};
ghost use Rattle.record_steps.specs.Streams.{asked_heard, heard_by, heard_fault, heard_through};

use bay_model::Step;
use bay_requests::read_request;
use object_model::Model;
use osi_stack::{Event, Line, StackFault};
use std::alloc::{AllocError, Global};
use stream_lines::{push_aborted, push_fault, push_frame, push_released};
use sv_base::{ActorNo, AssocNo, Octs, Owner};

/// A part of what a piece of a stream comes to.
#[derive(Drop)]
pub enum Heard {
    /// Lines of the stack's own: its answers, what it refuses, and how the association ends.
    Tells(Octs),
    /// A step of this actor.
    Makes(ActorNo, Step),
}

/// What the association of a stream is.
#[derive(Clone, Copy, Debug, PartialEq, Eq)]
pub enum Wired {
    /// It isn't connected yet.
    Dialling,
    /// It is connected, on this line.
    On(Line),
    /// It was released or aborted, or its stream is refused.
    Off,
}

/// An association that is connected is lost.
fn lose(a: AssocNo, wired: Wired, heard: &mut Vec<Heard>) -> Result<(), AllocError>
    ensures { OnOk result (heard.new.items ≡ heard.old.items ++ lost_by a wired) }
{
    match wired {
        Wired::On(_) => {
            heard.push(Heard::Makes(ActorNo(a.0), Step::Lost(a)))?;
            Ok(())
        }
        Wired::Dialling | Wired::Off => Ok(()),
    }
}

/// Octets are sent.
fn answer(
    alloc: Global,
    a: AssocNo,
    octets: &[u8],
    heard: &mut Vec<Heard>,
) -> Result<(), AllocError>
    ensures { OnOk result (heard.new.items ≡ heard.old.items ++ Tells
        (frame_line a.0 octets.now) ∷ []) }
{
    let mut text = Vec::new(alloc);
    push_frame(&mut text, a, octets)?;
    heard.push(Heard::Tells(Octs::from_vec(text)))?;
    Ok(())
}

/// The association opens on a line, and the octets that accept it are sent.
fn connect(
    alloc: Global,
    a: AssocNo,
    line: Line,
    octets: &[u8],
    heard: &mut Vec<Heard>,
) -> Result<(), AllocError>
    ensures { OnOk result (heard.new.items ≡ heard.old.items ++ Makes (record { 0 = a.0 })
        (own_opening a line.size) ∷ Tells
        (frame_line a.0 octets.now) ∷ []) }
{
    let writer = ActorNo(a.0);
    let open = Step::Open {
        a,
        size: line.size,
        writer,
        owner: Owner::of(a),
    };
    heard.push(Heard::Makes(writer, open))?;
    answer(alloc, a, octets, heard)
}

/// The association asks, if a client asks something with the PDU.
fn ask(
    alloc: Global,
    model: &Model,
    a: AssocNo,
    pdu: &[u8],
    heard: &mut Vec<Heard>,
) -> Result<(), AllocError>
    ensures heard { OnOk result (heard.new.items ≡ heard.old.items ++ asked_heard a
        (asked_by model.now pdu.now)) }
    ensures fits { IsAssoc a → OnOk result (AllByRecursion (IsFittingPart model.now)
        (asked_heard a (asked_by model.now pdu.now))) }
{
    if let Some(request) = read_request(alloc, model, pdu)? {
        heard.push(Heard::Makes(ActorNo(a.0), Step::Ask(a, request)))?;
    }
    Ok(())
}

/// The association is released: the octets that answer that are sent.
fn release(
    alloc: Global,
    a: AssocNo,
    octets: &[u8],
    heard: &mut Vec<Heard>,
) -> Result<(), AllocError>
    ensures { OnOk result (heard.new.items ≡ heard.old.items ++ Tells (frame_line a.0 octets.now
        ++ released_line a.0) ∷ []) }
{
    let mut text = Vec::new(alloc);
    push_frame(&mut text, a, octets)?;
    push_released(&mut text, a)?;
    heard.push(Heard::Tells(Octs::from_vec(text)))?;
    Ok(())
}

/// The association is aborted.
fn abort(alloc: Global, a: AssocNo, heard: &mut Vec<Heard>) -> Result<(), AllocError>
    ensures { OnOk result (heard.new.items ≡ heard.old.items ++ Tells (aborted_line a.0) ∷ []) }
{
    let mut text = Vec::new(alloc);
    push_aborted(&mut text, a)?;
    heard.push(Heard::Tells(Octs::from_vec(text)))?;
    Ok(())
}

/// What an event comes to, and what the association is after it.
fn take_event(
    alloc: Global,
    model: &Model,
    a: AssocNo,
    wired: Wired,
    event: &Event,
    heard: &mut Vec<Heard>,
) -> Result<Wired, AllocError>
    requires number { IsAssoc a }
    requires line { HasLine event.now }
    requires wired { IsWired wired }
    ensures heard { OnOk result (heard.new.items ≡ heard.old.items
        ++ heard_by model.now a wired event.now) }
    ensures wired { IfOk result (λ w. w ≡ wired_by event.now wired) }
    ensures agreed { IfOk result IsWired }
    ensures fits { OnOk result (AllByRecursion (IsFittingPart model.now)
        (heard_by model.now a wired event.now)) }
{
    match event {
        Event::Answer(octets) => {
            answer(alloc, a, octets.as_slice(), heard)?;
            Ok(wired)
        }
        Event::Connected(line, octets) => {
            connect(alloc, a, *line, octets.as_slice(), heard)?;
            Ok(Wired::On(*line))
        }
        Event::Pdu(pdu) => {
            ask(alloc, model, a, pdu.as_slice(), heard)?;
            Ok(wired)
        }
        Event::Released(octets) => {
            release(alloc, a, octets.as_slice(), heard)?;
            lose(a, wired, heard)?;
            Ok(Wired::Off)
        }
        Event::Aborted => {
            abort(alloc, a, heard)?;
            lose(a, wired, heard)?;
            Ok(Wired::Off)
        }
    }
}

/// What a refusal of the stack comes to; out of memory is none.
fn take_fault(
    alloc: Global,
    a: AssocNo,
    wired: Wired,
    fault: StackFault,
    heard: &mut Vec<Heard>,
) -> Result<(), AllocError>
    ensures { OnOk result (heard.new.items ≡ heard.old.items ++ heard_fault a wired fault) }
{
    match fault {
        StackFault::Memory => Ok(()),
        StackFault::Refused {
            layer,
            code,
            octets,
        } => {
            let mut text = Vec::new(alloc);
            push_fault(&mut text, a, layer, code, octets)?;
            heard.push(Heard::Tells(Octs::from_vec(text)))?;
            lose(a, wired, heard)
        }
    }
}

/// What events come to, and the refusal after them, if there is one; gives what the association is then.
pub fn take_events(
    alloc: Global,
    model: &Model,
    a: AssocNo,
    before: Wired,
    events: &[Event],
    fault: Option<StackFault>,
    heard: &mut Vec<Heard>,
) -> Result<Wired, AllocError>
    requires number { IsAssoc a }
    requires lines { AllByRecursion HasLine events.now }
    requires wired { IsWired before }
    ensures heard { OnOk result (heard.new.items ≡ heard.old.items
        ++ heard_through model.now a events.now fault before) }
    ensures wired { IfOk result (λ w. w ≡ wired_through events.now fault before) }
    ensures agreed { IfOk result IsWired }
    ensures fits { OnOk result (AllByRecursion (IsFittingPart model.now)
        (heard_through model.now a events.now fault before)) }
{
    let mut wired = before;
    for event in events {
        wired = take_event(alloc, model, a, wired, event, heard)?;
    }
    match fault {
        None => Ok(wired),
        Some(fault) => {
            take_fault(alloc, a, wired, fault, heard)?;
            Ok(Wired::Off)
        }
    }
}
