//! The steps of a bay.

use crate::bay::Bay;
use bay_histories::StepFault;
use bay_model::{Answer, Step};
use std::alloc::Global;
use sv_base::{ActorNo, Moment};

impl Bay {
    ghost use Rattle.std.specs.Prelude.{◌≡◌, ◌<◌, ◌^◌, true};
    ghost use Rattle.object_model.specs.Fits.{fits as fits_in};
    ghost use Rattle.bay_histories.specs.Turns.{KeepsLean};
    ghost use Rattle.bay_core.specs.Turns.{Does, IsCounted};

    /// Makes a step at a moment; one that lies below the newest moment so far is taken as that.
    ///
    /// The step fits the model, and there were fewer than 2^62. Refuses, in this order, to open an association that is open
    /// (IsOpen); a request, a write or a loss of one that isn't open (NotOpen); a request or a write by another than the opener,
    /// a take by another than the writer of an open one, and a loss by neither (NotYours); a request where 16 replies wait
    /// (QueueFull). A refused step changes nothing and isn't counted, when out of memory too.
    pub fn step(
        &mut self,
        alloc: Global,
        moment: Moment,
        actor: ActorNo,
        step: &Step,
    ) -> Result<Answer, StepFault>
        requires fits { fits_in self.old.config step.now ≡ true }
        requires few { self.old.steps < 2 ^ 62 }
        // The answer is the one that the definitions give after every history that the bay stands for, and then it stands
        // for the longer one; a refusal is the one that they name, and then the bay is as it was.
        ensures does { Does self.old self.new (record {
          moment = moment;
          actor = actor.0;
          step = step.now;
        }) result }
        ensures counted { IsCounted self.old self.new result }
        // Of these steps out of memory is never answered.
        ensures lean { KeepsLean step.now result }
    {
        match step {
            Step::Open {
                a,
                size,
                writer,
                owner,
            } => self.open_association(moment, actor, *a, *size, *writer, *owner),
            Step::Write(a, b, comp, value) => self.write(moment, actor, *a, *b, *comp, value),
            Step::Take(a) => self.take(alloc, moment, actor, *a),
            Step::Lost(a) => self.lose(moment, actor, *a),
            Step::Value(sets) => self.set(moment, actor, sets),
            Step::Tick => self.tick(moment, actor),
            Step::Ask(a, request) => self.ask(alloc, moment, actor, *a, request),
            Step::Done(control, good) => self.end_command(moment, actor, *control, *good),
            Step::Block(control, on) => self.block_control(moment, actor, *control, *on),
        }
    }
}
