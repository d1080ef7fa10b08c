//! What the process sets, and the entries that the report blocks get of it.

use crate::bay::Bay;
use bay_histories::StepFault;
use bay_model::{Answer, Sets};
use block_events::{Source, event_all};
use sv_base::{ActorNo, Moment};

impl Bay {
    ghost use Rattle.std.specs.Prelude.{◌≡◌, ◌<◌, ◌^◌, true};
    ghost use Rattle.bay_model.specs.declared.step.Step.TheVariants as steps;
    ghost use Rattle.object_model.specs.Fits.{fits as fits_in};
    ghost use Rattle.bay_histories.specs.Turns.{KeepsLean};
    ghost use Rattle.bay_core.specs.Turns.{Does, IsCounted};

    /// The process sets attributes (IEC 61850-7-2, DataAttribute), and each block takes in its event. It takes no memory.
    pub(crate) fn set(
        &mut self,
        moment: Moment,
        actor: ActorNo,
        sets: &Sets,
    ) -> Result<Answer, StepFault>
        requires fits { fits_in self.old.config (steps.Value sets.now) ≡ true }
        requires few { self.old.steps < 2 ^ 62 }
        ensures does { Does self.old self.new (record {
          moment = moment;
          actor = actor.0;
          step = steps.Value sets.now;
        }) result }
        ensures counted { IsCounted self.old self.new result }
        ensures lean { KeepsLean (steps.Value sets.now) result }
    {
        self.arrive(moment);
        self.changes.clear();
        self.values
            .set(&self.model, sets.as_slice(), &mut self.changes);
        self.groups.set_all(sets.as_slice());
        let source = Source {
            store: self.values.store(),
            book: &self.sets,
            rows: self.model.nodes().as_slice(),
        };
        event_all(
            &mut self.parts,
            &mut self.dues,
            &mut self.watch,
            &source,
            self.changes.as_slice(),
            self.latest,
            self.steps,
            &mut self.events,
            &mut self.octets,
        );
        self.count();
        Ok(Answer::Went)
    }
}
