//! The steps of a made record, applied to a bay.

ghost use Rattle.std.specs.Prelude.{◌≡◌, ◌≤◌};
ghost use Rattle.run_record.specs.Grammar.{IsLine};
ghost use Rattle.run_record.specs.Seen.{line_seen};
ghost use Rattle.record_steps.specs.Resolved.{association_of};

use crate::summary::Summary;
use bay_core::{Bay, StepFault};
use bay_model::Step;
use record_steps::{Forms, Told, association};
use run_record::{LineView, view_line};
use std::alloc::{AllocError, Global};
use sv_base::{ActorNo, AssocNo, Moment};

/// The number of the association that a line names, and 0 where it names none.
fn named_by(line: &LineView<'_>) -> AssocNo
    requires { IsLine (line_seen line.now) }
    ensures number { result.0 ≡ association_of (line_seen line.now) }
    ensures within { result.0 ≤ 16 }
{
    match association(line) {
        Some(a) => a,
        None => AssocNo(0),
    }
}

/// A bay, the moment of the next step, what the associations are, and what the answers so far come to.
#[derive(Drop)]
pub struct Loading {
    bay: Bay,
    moment: Moment,
    forms: Forms,
    summary: Summary,
}

impl Loading {
    ghost use Rattle.std.specs.Prelude.{◌≡◌, ◌^◌, List, [], true, IfOk};
    ghost use Rattle.object_model.specs.Fits.{fits};
    ghost use Rattle.run_record.specs.Grammar.{IsLine};
    ghost use Rattle.run_record.specs.Seen.{line_seen};
    ghost use Rattle.bay_core.specs.Standing.{StandsFor};
    ghost use Rattle.record_steps.specs.Telling.{telling};
    ghost use Rattle.record_steps.specs.Told.{turn};
    ghost use Rattle.record_steps.specs.declared.heard.Heard.{Heard};
    ghost use Rattle.load_run.specs.Loads.{Loads, Moves, Follows, FollowsAs, IsFitting, IsFew};

    /// A bay before its first step, where no association is open.
    pub fn new(alloc: Global, bay: Bay) -> Result<Loading, AllocError>
        requires stands { StandsFor bay bay.config [] }
        requires none { bay.steps ≡ 0 }
        ensures loads { IfOk result (λ l. Loads l bay.config []) }
        ensures few { IfOk result (λ l. IsFew l 0) }
    {
        let Ok(forms) = Forms::new(alloc) else {
            drop(bay);
            return Err(AllocError);
        };
        Ok(Loading {
            bay,
            moment: Moment::first(),
            forms,
            summary: Summary::new(),
        })
    }

    /// What the answers so far come to.
    pub fn summary(&self) -> Summary
        ensures { result ≡ self.now.summary }
    {
        self.summary
    }

    /// Applies a step, and counts what it is answered; false where it is refused.
    fn perform(&mut self, alloc: Global, actor: ActorNo, step: &Step) -> Result<bool, AllocError>
        requires fits { fits self.old.bay.config step.now ≡ true }
        requires few { IsFew self.old (2 ^ 61) }
        ensures { IfOk result (λ went. went ≡ true
            → Moves self.old self.new (turn actor.0 step.now)) }
    {
        match self.bay.step(alloc, self.moment, actor, step) {
            Ok(answer) => {
                self.summary.count(&answer);
                self.bay.reuse(answer);
                Ok(true)
            }
            Err(StepFault::Memory) => Err(AllocError),
            Err(_) => Ok(false),
        }
    }

    /// Does what was told, whose step stands in a slot; false where no line of a made record says it, or the step is refused.
    fn act(&mut self, alloc: Global, told: Told, slot: &Step) -> Result<bool, AllocError>
        requires fits { IsFitting self.old.bay.config told slot.now }
        requires few { IsFew self.old (2 ^ 61) }
        ensures { IfOk result (λ went. went ≡ true → (heard : List Heard)
            → Moves self.old self.new (telling told slot.now heard)) }
    {
        match told {
            Told::Nothing => Ok(true),
            Told::At(moment) => {
                self.moment = moment;
                Ok(true)
            }
            Told::Step(actor) => self.perform(alloc, actor, slot),
            Told::Heard | Told::Refused(_) | Told::End => Ok(false),
        }
    }

    /// Does what a line says, whose step is made in a slot; false as `act` says.
    fn play(
        &mut self,
        alloc: Global,
        line: &LineView<'_>,
        slot: &mut Step,
    ) -> Result<bool, AllocError>
        requires ranges { IsLine (line_seen line.now) }
        requires few { IsFew self.old (2 ^ 61) }
        ensures { IfOk result (λ went. went ≡ true
            → FollowsAs self.old self.new (line_seen line.now)) }
    {
        let a = named_by(line);
        // for the prover: what is kept of the association stands for one
        let _shape = self.forms.shape(a);
        let mut heard = Vec::new(alloc);
        let told = self
            .forms
            .tell(alloc, self.bay.model(), a, line, slot, &mut heard)?;
        self.act(alloc, told, slot)
    }

    /// Reads a step line, without its newline, and applies its step; false where no line of a made record says what it says, or the
    /// step is refused. What the process sets stays in a slot, whose memory serves again.
    pub fn read(&mut self, alloc: Global, line: &[u8], kept: &mut Step) -> Result<bool, AllocError>
        requires { IsFew self.old (2 ^ 61) }
        ensures { IfOk result (λ went. went ≡ true → Follows self.old self.new line.now) }
    {
        match view_line(line) {
            Ok(line) => {
                if matches!(line, LineView::Set(_)) {
                    self.play(alloc, &line, kept)
                } else {
                    self.play(alloc, &line, &mut Step::Tick)
                }
            }
            Err(_) => Ok(false),
        }
    }
}
