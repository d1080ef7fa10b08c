//! The steps of a record, applied to a bay.

ghost use Rattle.std.specs.Prelude.{◌≡◌, ◌≤◌, IfSome};
ghost use Rattle.run_record.specs.Grammar.{IsLine};
ghost use Rattle.run_record.specs.Seen.{line_seen};
ghost use Rattle.record_steps.specs.Resolved.{association_of};
ghost use Rattle.std.specs.Option.{option_map};
ghost use Rattle.bay_histories.specs.Faults.{named};
ghost use Rattle.record_outcome.specs.Steps.{stop_of};
ghost use Rattle.record_outcome.specs.Judgements.{IsJudgement};

use answer_text::lines_of;
use bay_core::{Bay, StepFault};
use bay_model::{Answer, Step};
use record_outcome::status::Status;
use record_steps::{Forms, Heard, Told, association};
use run_record::{Kind, LineView, view_line};
use std::alloc::{AllocError, Global};
use stream_lines::Shape;
use sv_base::{ActorNo, AssocNo, Moment};

/// The status of a line whose step is refused; none when out of memory.
fn stop(number: u64, fault: StepFault) -> Option<Status>
    ensures status { result ≡ option_map (stop_of number) (named fault) }
    ensures judged { IfSome result IsJudgement }
{
    match fault {
        StepFault::QueueFull(_) => Some(Status::Limit {
            which: 2,
            line: number,
        }),
        StepFault::IsOpen(_) | StepFault::NotOpen(_) | StepFault::NotYours(_) => {
            Some(Status::Record {
                line: number,
                kind: Kind::State.number(),
            })
        }
        StepFault::Memory => None,
    }
}

/// The number of the association that a line names, and 0 where it names none.
fn number_in(line: &LineView<'_>) -> AssocNo
    requires { IsLine (line_seen line.now) }
    ensures number { result.0 ≡ association_of (line_seen line.now) }
    ensures within { result.0 ≤ 16 }
{
    match association(line) {
        Some(a) => a,
        None => AssocNo(0),
    }
}

/// The slot for the step of a line: the one that is kept where the process sets something, else the other.
fn slot_of<'s>(line: &LineView<'_>, kept: &'s mut Step, other: &'s mut Step) -> &'s mut Step {
    match line {
        LineView::Set(_) => kept,
        _ => other,
    }
}

/// A bay, the moment of the next step, and what the associations are.
#[derive(Drop)]
pub struct Playing {
    bay: Bay,
    moment: Moment,
    forms: Forms,
}

impl Playing {
    ghost use Rattle.std.specs.Prelude.{◌≡◌, ◌≤◌, ◌<◌, ◌+◌, ◌^◌, suc, true, [], ◌∷◌, length, None};
    ghost use Rattle.std.specs.Prelude.{IfOk, IfSome, IfNone, OnErr};
    ghost use Rattle.std.specs.List.{AllByRecursion};
    ghost use Rattle.sv_base.specs.declared.config.Config.{Config};
    ghost use Rattle.bay_model.specs.Named.{configured_model};
    ghost use Rattle.bay_model.specs.Acceptance.{fault};
    ghost use Rattle.run_record.specs.Grammar.{IsLine};
    ghost use Rattle.run_record.specs.Seen.{line_seen};
    ghost use Rattle.object_model.specs.Fits.{fits};
    ghost use Rattle.bay_core.specs.Standing.{StandsFor};
    ghost use Rattle.stream_lines.specs.Shapes.{IsShape};
    ghost use Rattle.record_steps.specs.Streams.{made};
    ghost use Rattle.record_steps.specs.Telling.{most_steps};
    ghost use Rattle.record_outcome.specs.Played.{Played, start, turn_at};
    ghost use Rattle.record_outcome.specs.Steps.{step_at};
    ghost use Rattle.record_session.specs.Plays.{Plays, PlaysOn, PlaysSlot, Performs, DoesPart};
    ghost use Rattle.record_session.specs.Plays.{DoesParts, IsReadyPart, IsReady, most_of};
    ghost use Rattle.record_session.specs.Plays.{plays_told};
    ghost use Rattle.record_outcome.specs.Judgements.{IsJudgement};

    /// A bay before its first step, where no association is open.
    pub fn new(alloc: Global, bay: Bay) -> Result<Playing, AllocError>
        requires { StandsFor bay bay.config [] }
        ensures plays { IfOk result (λ p. Plays p bay.config start) }
        ensures steps { IfOk result (λ p. p.bay.steps ≡ bay.steps) }
    {
        let Ok(forms) = Forms::new(alloc) else {
            drop(bay);
            return Err(AllocError);
        };
        Ok(Playing {
            bay,
            moment: Moment::first(),
            forms,
        })
    }

    /// Performs the step of a line, and writes the answer to it in this shape; or gives the status with which the reading
    /// stops. A step that comes to nothing has no fault, so memory alone may be lacking.
    fn perform(
        &mut self,
        alloc: Global,
        out: &mut Vec<u8>,
        number: u64,
        shape: Shape,
        actor: ActorNo,
        step: &Step,
    ) -> Result<Option<Status>, AllocError>
        requires fits { fits self.old.bay.config step.now ≡ true }
        requires shape { IsShape shape }
        requires few { self.old.bay.steps < 2 ^ 62 }
        ensures performs { IfOk result
            (λ s. Performs s self.old self.new number shape actor.0 step.now out.old.items
            out.new.items) }
        ensures judged { IfOk result (λ s. IfSome s IsJudgement) }
        ensures faultless { OnErr result ((c : Config) (s : Played) → Plays self.old c s
            → fault (configured_model c) s.turns (turn_at s actor.0 step.now) ≡ None) }
        ensures few { IfOk result (λ s. IfNone s (self.new.bay.steps ≤ suc self.old.bay.steps)) }
        ensures same { IfOk result (λ s. IfNone s (self.new.bay.config ≡ self.old.bay.config)) }
    {
        match self.bay.step(alloc, self.moment, actor, step) {
            Ok(Answer::Went) => Ok(None),
            Ok(Answer::Empty) => {
                lines_of(alloc, self.bay.model(), shape, step, &Answer::Empty, out)?;
                Ok(None)
            }
            Ok(answer) => {
                let written = lines_of(alloc, self.bay.model(), shape, step, &answer, out);
                self.bay.reuse(answer);
                written?;
                Ok(None)
            }
            Err(fault) => match stop(number, fault) {
                Some(status) => Ok(Some(status)),
                None => Err(AllocError),
            },
        }
    }

    /// Does a part of a piece after those before it: writes what the stack answers, or applies a step; or gives the status with
    /// which the reading stops.
    fn do_part(
        &mut self,
        alloc: Global,
        out: &mut Vec<u8>,
        number: u64,
        shape: Shape,
        part: &Heard,
    ) -> Result<Option<Status>, AllocError>
        requires ready { IsReadyPart self.old.bay.config part.now }
        requires shape { IsShape shape }
        requires few { self.old.bay.steps < 2 ^ 62 }
        ensures does { IfOk result
            (λ s. DoesPart s self.old self.new number shape part.now out.old.items out.new.items) }
        ensures judged { IfOk result (λ s. IfSome s IsJudgement) }
        ensures few { IfOk result (λ s. IfNone s (self.new.bay.steps ≤ self.old.bay.steps + made
            (part.now ∷ []))) }
        ensures same { IfOk result (λ s. IfNone s (self.new.bay.config ≡ self.old.bay.config)) }
    {
        match part {
            Heard::Tells(text) => {
                out.extend_from_slice(text.as_slice())?;
                Ok(None)
            }
            Heard::Makes(actor, step) => self.perform(alloc, out, number, shape, *actor, step),
        }
    }

    /// Does the parts of a piece one after another; where a step is refused, what was written of them is taken back. It stays a call,
    /// so that no other line pays for its memory.
    #[inline(never)]
    fn do_parts(
        &mut self,
        alloc: Global,
        out: &mut Vec<u8>,
        number: u64,
        shape: Shape,
        heard: &[Heard],
    ) -> Result<Option<Status>, AllocError>
        requires ready { AllByRecursion (IsReadyPart self.old.bay.config) heard.now }
        requires shape { IsShape shape }
        requires few { self.old.bay.steps + made heard.now < 2 ^ 62 }
        ensures does { IfOk result
            (λ s. DoesParts s self.old self.new number shape heard.now out.old.items
            out.new.items) }
        ensures judged { IfOk result (λ s. IfSome s IsJudgement) }
        ensures few { IfOk result
            (λ s. IfNone s (self.new.bay.steps ≤ self.old.bay.steps + made heard.now)) }
    {
        let before = out.len();
        for part in heard {
            if let Some(status) = self.do_part(alloc, out, number, shape, part)? {
                out.truncate(before);
                return Ok(Some(status));
            }
        }
        Ok(None)
    }

    /// Does what was told, whose step stands in a slot and whose parts in a list, and writes the answer to it in this shape; or
    /// gives the status with which the reading stops.
    fn act(
        &mut self,
        alloc: Global,
        out: &mut Vec<u8>,
        number: u64,
        shape: Shape,
        told: Told,
        slot: &Step,
        heard: &[Heard],
    ) -> Result<Option<Status>, AllocError>
        requires ready { IsReady self.old.bay.config told slot.now heard.now }
        requires shape { IsShape shape }
        requires few { self.old.bay.steps + most_of told heard.now < 2 ^ 62 }
        ensures plays { IfOk result
            (λ s. PlaysSlot s self.old self.new number shape told slot.now heard.now out.old.items
            out.new.items) }
        ensures judged { IfOk result (λ s. IfSome s IsJudgement) }
        ensures few { IfOk result
            (λ s. IfNone s (self.new.bay.steps ≤ self.old.bay.steps + most_of told heard.now)) }
    {
        match told {
            Told::Nothing => Ok(None),
            Told::At(moment) => {
                self.moment = moment;
                Ok(None)
            }
            Told::Step(actor) => self.perform(alloc, out, number, shape, actor, slot),
            Told::Heard => self.do_parts(alloc, out, number, shape, heard),
            Told::Refused(kind) => Ok(Some(Status::Record {
                line: number,
                kind: kind.number(),
            })),
            Told::End => {
                out.extend_from_slice(b"end\n")?;
                Ok(Some(Status::Ok))
            }
        }
    }

    /// Does what a line says, whose step is made in a slot, and writes the answer to it; or gives the status with which the reading stops.
    fn play(
        &mut self,
        alloc: Global,
        out: &mut Vec<u8>,
        number: u64,
        line: &LineView<'_>,
        slot: &mut Step,
    ) -> Result<Option<Status>, AllocError>
        requires ranges { IsLine (line_seen line.now) }
        requires few { self.old.bay.steps + most_steps (line_seen line.now) < 2 ^ 62 }
        ensures plays { IfOk result (λ s. PlaysOn s self.old self.new
            (plays_told number (line_seen line.now)) out.old.items out.new.items) }
        ensures judged { IfOk result (λ s. IfSome s IsJudgement) }
        ensures few { IfOk result
            (λ s. IfNone s (self.new.bay.steps ≤ self.old.bay.steps + most_steps
            (line_seen line.now))) }
    {
        let a = number_in(line);
        let shape = self.forms.shape(a);
        let mut heard = Vec::new(alloc);
        let told = self
            .forms
            .tell(alloc, self.bay.model(), a, line, slot, &mut heard)?;
        self.act(alloc, out, number, shape, told, slot, &heard)
    }

    /// Reads a step line, without its newline, and writes the answer to it; or gives the status with which the reading stops. It makes
    /// at most as many steps as the line has octets, and one. What the process sets stays in a slot, whose memory serves again.
    pub fn read(
        &mut self,
        alloc: Global,
        out: &mut Vec<u8>,
        number: u64,
        line: &[u8],
        kept: &mut Step,
    ) -> Result<Option<Status>, AllocError>
        requires few { self.old.bay.steps + length line.now < 2 ^ 61 }
        ensures plays { IfOk result (λ s. PlaysOn s self.old self.new
            (λ c p. step_at number c p line.now) out.old.items out.new.items) }
        ensures judged { IfOk result (λ s. IfSome s IsJudgement) }
        ensures few { IfOk result
            (λ s. IfNone s (self.new.bay.steps ≤ suc (self.old.bay.steps + length line.now))) }
    {
        match view_line(line) {
            Ok(line) => {
                let mut other = Step::Tick;
                let slot = slot_of(&line, kept, &mut other);
                self.play(alloc, out, number, &line, slot)
            }
            Err(kind) => Ok(Some(Status::Record {
                line: number,
                kind: kind.number(),
            })),
        }
    }
}
