//! What makes steps one after another, as a bay does.

ghost use Rattle.std.specs.Prelude.{◌≡◌, ◌<◌, ◌^◌, true, length};
ghost use Rattle.sv_base.specs.declared.config.Config.{Config};
ghost use Rattle.object_model.specs.Fits.{fits as fits_in};
ghost use Rattle.bay_model.specs.Answers.{History};
ghost use Rattle.bay_histories.specs.Rules.{Rules};
ghost use Rattle.bay_histories.specs.Histories.{IsLegal};
ghost use Rattle.bay_histories.specs.Turns.{Does, KeepsLean, KeepsProcess};

use crate::fault::StepFault;
use bay_model::{Answer, Step};
use object_model::Model;
use std::alloc::Global;
use sv_base::{ActorNo, Moment};

/// What makes steps one after another, as a bay does, and answers each by its rules after those that it accepted.
pub trait StateMachine: Send + Drop {
    /// The configuration of its model.
    ghost config: { Self → Config };

    /// What a step is answered after a history of accepted steps, and why one is refused, by a configuration.
    ghost rules: { Rules };

    /// It stands for this history of accepted steps, with this configuration.
    ghost stands: { Self → Config → History → Type 0 };

    /// Its model.
    fn model(&self) -> &Model
        ensures { result.now ≡ config self.now };

    /// Makes a step at a moment, as an actor. It fits the model, and there were fewer than 2^62. A refused step changes nothing.
    fn step(
        &mut self,
        alloc: Global,
        moment: Moment,
        actor: ActorNo,
        step: &Step,
    ) -> Result<Answer, StepFault>
        requires { (c : Config) × (h : History) × stands self.old c h × (fits_in c step.now ≡ true)
            × (length h < 2 ^ 62) }
        ensures does { Does rules stands self.old self.new (record {
          moment = moment;
          actor = actor.0;
          step = step.now;
        }) result }
        // It stands for accepted steps alone.
        ensures legal { (c : Config) (h : History) → stands self.new c h → IsLegal rules c h }
        // Some steps are never refused when out of memory.
        ensures lean { KeepsLean step.now result }
        // What the process does, and time that passes, is never refused.
        ensures process { KeepsProcess step.now result };
}
