//! What a line says: a step in a slot that is lent, the parts of a piece in a list, or the first cause for which there is none.

ghost use Rattle.std.specs.Prelude.{◌≡◌, ◌≤◌, [], IfOk, OnOk, IfSome, MatchOption};
ghost use Rattle.std.specs.List.{AllByRecursion};
ghost use Rattle.run_record.specs.Grammar.{IsAssoc, IsForm, IsLine};
ghost use Rattle.text_words.specs.Values.{hex_at};
ghost use Rattle.bay_requests.specs.Requests.{IsFitting};
ghost use Rattle.run_record.specs.Seen.{line_seen, pairs_seen};
ghost use Rattle.name_leaves.specs.Numbers.{number_in};
ghost use Rattle.object_model.specs.References.{block_references, control_references};
ghost use Rattle.sv_base.specs.ComponentTable.{comp_named};
ghost use Rattle.record_steps.specs.Resolved.{opened_in, opened_as, written_as, lost_as, asked_as};
ghost use Rattle.record_steps.specs.Resolved.{spelled_as, sent_as, set_as, ended_as, blocked_as};
ghost use Rattle.record_steps.specs.Resolved.{turn_of, association_of, told_of};
ghost use Rattle.record_steps.specs.Forms as specs;
ghost use Rattle.record_steps.specs.Forms.{IsSized, Stands, plain, form_behind};
ghost use Rattle.record_steps.specs.Own.{IsFittingPart};
ghost use Rattle.record_steps.specs.Streams.{made};
ghost use Rattle.record_steps.specs.Telling.{telling, IsPlain, most_steps, NamesNone, Names};
ghost use Rattle.bay_model.specs.declared.step.Step.TheVariants as steps;

use crate::form::{Form, pass};
use crate::heard::Heard;
use crate::stream::hear;
use bay_model::{Comp, Request, Sets, Setting, Step};
use bay_requests::read_request;
use object_model::Model;
use record_values::{Found, settings_of, shape};
use run_record::{Kind, LineView, OpenForm, PairsView};
use std::alloc::{AllocError, Global};
use std::mem::replace;
use sv_base::{ActorNo, AssocNo, Moment, Owner};
use text_words::hex_octets;

/// What a line says, where a step stands in the slot that was lent, and the parts of a piece in the list.
#[derive(Clone, Copy, Debug, PartialEq, Eq)]
pub enum Told {
    /// Nothing.
    Nothing,
    /// The moment of the lines that follow.
    At(Moment),
    /// The step in the slot, of this actor.
    Step(ActorNo),
    /// The parts in the list, of a piece of a stream.
    Heard,
    /// The line is refused.
    Refused(Kind),
    /// It is the last line.
    End,
}

/// Puts a step into a slot.
#[inline(always)] // so that the step is made where it stays
fn put(slot: &mut Step, step: Step)
    ensures { slot.new ≡ step }
{
    *slot = step;
}

/// An association that isn't open is opened; one of a stream opens when it is connected.
fn open_shut(model: &Model, a: AssocNo, asked: OpenForm, step: &mut Step) -> Told
    requires number { IsAssoc a }
    requires size { IsForm asked }
    ensures { telling result step.new [] ≡ opened_in model.now a asked }
{
    let writer = ActorNo(a.0);
    let size = match asked {
        OpenForm::Direct => 65000,
        OpenForm::Mms(size) => size,
        OpenForm::Wire => return Told::Nothing,
    };
    let owner = Owner::of(a);
    put(
        step,
        Step::Open {
            a,
            size,
            writer,
            owner,
        },
    );
    Told::Step(writer)
}

/// An association is opened, if it isn't open.
fn open(model: &Model, form: &Form, a: AssocNo, asked: OpenForm, step: &mut Step) -> Told
    requires number { IsAssoc a }
    requires size { IsForm asked }
    ensures { telling result step.new [] ≡ opened_as model.now (plain form.now) a asked }
{
    match form {
        Form::Shut => open_shut(model, a, asked, step),
        Form::Direct | Form::Mms(_) | Form::Dialling(_) | Form::Wire(..) => {
            Told::Refused(Kind::State)
        }
    }
}

/// An association writes a component, if both have their names and it is direct.
fn write(
    alloc: Global,
    model: &Model,
    form: &Form,
    a: AssocNo,
    block: &[u8],
    comp: &[u8],
    value: &[u8],
    step: &mut Step,
) -> Result<Told, AllocError>
    requires { IsAssoc a }
    ensures { IfOk result (λ told. telling told step.new [] ≡ written_as model.now
        (plain form.now) a
        (number_in (block_references model.now) block.now) (comp_named comp.now) value.now) }
{
    let Some(block) = model.block(block) else {
        return Ok(Told::Refused(Kind::Name));
    };
    let Some(comp) = Comp::of_name(comp) else {
        return Ok(Told::Refused(Kind::Name));
    };
    if !form.is_direct() {
        return Ok(Told::Refused(Kind::State));
    }
    let Some(value) = shape(alloc, comp, value)? else {
        return Ok(Told::Refused(Kind::Value));
    };
    put(step, Step::Write(a, block, comp, value));
    Ok(Told::Step(ActorNo(a.0)))
}

/// An association takes what waits for it.
fn take(model: &Model, a: AssocNo, step: &mut Step) -> Told
    requires { IsAssoc a }
    ensures { telling result step.new [] ≡ turn_of model.now a.0 (steps.Take a) }
{
    put(step, Step::Take(a));
    Told::Step(ActorNo(a.0))
}

/// An association is lost, if it is open; one that dials ends without a step.
fn lose(model: &Model, form: &Form, a: AssocNo, step: &mut Step) -> Told
    requires { IsAssoc a }
    ensures { telling result step.new [] ≡ lost_as model.now (plain form.now) a }
{
    match form {
        Form::Shut => Told::Refused(Kind::State),
        Form::Dialling(_) => Told::Nothing,
        Form::Direct | Form::Mms(_) | Form::Wire(..) => {
            put(step, Step::Lost(a));
            Told::Step(ActorNo(a.0))
        }
    }
}

/// An association asks, if there is something that it asks.
fn ask(model: &Model, a: AssocNo, asked: Option<Request>, step: &mut Step) -> Told
    requires number { IsAssoc a }
    requires fits { IfSome asked (IsFitting model.now) }
    ensures { telling result step.new [] ≡ asked_as model.now a asked }
{
    let Some(request) = asked else {
        return Told::Nothing;
    };
    put(step, Step::Ask(a, request));
    Told::Step(ActorNo(a.0))
}

/// An association of MMS sends a PDU, if it is spelled in hexadecimal.
fn send_spelled(
    alloc: Global,
    model: &Model,
    a: AssocNo,
    hex: &[u8],
    step: &mut Step,
) -> Result<Told, AllocError>
    requires { IsAssoc a }
    ensures { IfOk result (λ told. telling told step.new [] ≡ spelled_as model.now a
        (hex_at hex.now)) }
{
    let Some(octets) = hex_octets(alloc, hex)? else {
        return Ok(Told::Refused(Kind::Hex));
    };
    let asked = read_request(alloc, model, &octets)?;
    Ok(ask(model, a, asked, step))
}

/// An association sends a PDU, if it is one of MMS.
fn send(
    alloc: Global,
    model: &Model,
    form: &Form,
    a: AssocNo,
    hex: &[u8],
    step: &mut Step,
) -> Result<Told, AllocError>
    requires { IsAssoc a }
    ensures { IfOk result (λ told. telling told step.new [] ≡ sent_as model.now
        (plain form.now) a hex.now) }
{
    match form {
        Form::Mms(_) => send_spelled(alloc, model, a, hex, step),
        Form::Shut | Form::Direct | Form::Dialling(_) | Form::Wire(..) => {
            Ok(Told::Refused(Kind::State))
        }
    }
}

/// The settings of the step in a slot, for the sake of their memory; none where it is another step.
fn spare_in(alloc: Global, slot: &mut Step) -> Vec<Setting>
    ensures { slot.new ≡ steps.Tick }
{
    match replace(slot, Step::Tick) {
        Step::Value(sets) => sets.into_vec(),
        _ => Vec::new(alloc),
    }
}

/// The process sets attributes. Those that the step in the slot set lend their memory.
fn set(
    alloc: Global,
    model: &Model,
    pairs: &PairsView<'_>,
    step: &mut Step,
) -> Result<Told, AllocError>
    ensures { IfOk result (λ told. telling told step.new [] ≡ set_as model.now
        (pairs_seen pairs.now)) }
{
    let spare = spare_in(alloc, step);
    match settings_of(alloc, model, pairs, spare)? {
        Found::Settings(settings) => {
            put(step, Step::Value(Sets::from_vec(settings)));
            Ok(Told::Step(ActorNo(0)))
        }
        Found::Unnamed => Ok(Told::Refused(Kind::Name)),
        Found::Unspelled => Ok(Told::Refused(Kind::Value)),
    }
}

/// The process ends what a control executes, if the control is there.
fn end(model: &Model, control: &[u8], well: bool, step: &mut Step) -> Told
    ensures { telling result step.new [] ≡ ended_as model.now
        (number_in (control_references model.now) control.now) well }
{
    let Some(control) = model.control(control) else {
        return Told::Refused(Kind::Name);
    };
    put(step, Step::Done(control, well));
    Told::Step(ActorNo(0))
}

/// The process blocks a control or unblocks it, if it is there.
fn block(model: &Model, control: &[u8], on: bool, step: &mut Step) -> Told
    ensures { telling result step.new [] ≡ blocked_as model.now
        (number_in (control_references model.now) control.now) on }
{
    let Some(control) = model.control(control) else {
        return Told::Refused(Kind::Name);
    };
    put(step, Step::Block(control, on));
    Told::Step(ActorNo(0))
}

/// The association that a line names.
pub fn association(line: &LineView<'_>) -> Option<AssocNo>
    ensures { MatchOption result (NamesNone (line_seen line.now)) (Names (line_seen line.now)) }
{
    match line {
        LineView::Open { a, .. } => Some(*a),
        LineView::Write { a, .. } => Some(*a),
        LineView::Pdu(a, _) => Some(*a),
        LineView::Piece(a, _) => Some(*a),
        LineView::Take(a) => Some(*a),
        LineView::Lost(a) => Some(*a),
        LineView::Skip
        | LineView::At(_)
        | LineView::Set(_)
        | LineView::Done(..)
        | LineView::Block(..)
        | LineView::Tick
        | LineView::End => None,
    }
}

/// What a line says that is no piece of a stream, by what the association that it names is. A step is made in the slot, and
/// fits the model.
#[tactic(auto, unfolding(crate::specs::Resolved::told_of))]
fn say(
    alloc: Global,
    model: &Model,
    form: &Form,
    line: &LineView<'_>,
    step: &mut Step,
) -> Result<Told, AllocError>
    requires ranges { IsLine (line_seen line.now) }
    requires plain { IsPlain (line_seen line.now) }
    ensures told { IfOk result (λ told. telling told step.new [] ≡ told_of model.now
        (plain form.now) (line_seen line.now)) }
{
    match line {
        LineView::Skip => Ok(Told::Nothing),
        LineView::At(moment) => Ok(Told::At(*moment)),
        LineView::Open { a, form: asked } => Ok(open(model, form, *a, *asked, step)),
        LineView::Write {
            a,
            block,
            comp,
            value,
        } => write(alloc, model, form, *a, block, comp, value, step),
        LineView::Pdu(a, hex) => send(alloc, model, form, *a, hex, step),
        LineView::Piece(..) => Ok(Told::Refused(Kind::State)),
        LineView::Take(a) => Ok(take(model, *a, step)),
        LineView::Lost(a) => Ok(lose(model, form, *a, step)),
        LineView::Set(pairs) => set(alloc, model, pairs, step),
        LineView::Done(control, well) => Ok(end(model, control, *well, step)),
        LineView::Block(control, on) => Ok(block(model, control, *on, step)),
        LineView::Tick => {
            put(step, Step::Tick);
            Ok(Told::Step(ActorNo(0)))
        }
        LineView::End => Ok(Told::End),
    }
}

/// What a line says, by what the association that it names is; that becomes what it is after the line. A step is made in the
/// slot, and the parts of a piece are put into the list, which is empty; each step fits the model.
pub fn tell(
    alloc: Global,
    model: &Model,
    form: &mut Form,
    line: &LineView<'_>,
    step: &mut Step,
    heard: &mut Vec<Heard>,
) -> Result<Told, AllocError>
    requires ranges { IsLine (line_seen line.now) }
    requires sized { IsSized form.old }
    requires none { heard.old.items ≡ [] }
    ensures told { (f : specs.Form) → Stands form.old f → IfOk result
        (λ told. telling told step.new heard.new.items ≡ told_of model.now f (line_seen line.now)) }
    ensures form { (f : specs.Form) → Stands form.old f → OnOk result
        (Stands form.new (form_behind (association_of (line_seen line.now))
        (line_seen line.now) f)) }
    ensures sized { IsSized form.new }
    ensures fits { OnOk result (AllByRecursion (IsFittingPart model.now) heard.new.items) }
    ensures few { OnOk result (made heard.new.items ≤ most_steps (line_seen line.now)) }
{
    match line {
        LineView::Piece(a, hex) => {
            let was = replace(form, Form::Shut);
            let (after, told) = hear(alloc, model, *a, was, hex, heard)?;
            *form = after;
            Ok(told)
        }
        LineView::Skip
        | LineView::At(_)
        | LineView::Open { .. }
        | LineView::Write { .. }
        | LineView::Pdu(..)
        | LineView::Take(_)
        | LineView::Lost(_)
        | LineView::Set(_)
        | LineView::Done(..)
        | LineView::Block(..)
        | LineView::Tick
        | LineView::End => {
            let told = say(alloc, model, form, line, step)?;
            pass(line, form);
            Ok(told)
        }
    }
}
