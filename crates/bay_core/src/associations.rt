//! The steps that open and end associations, and those that only pass time.

use crate::bay::Bay;
use assoc_table::Ends;
use bay_histories::StepFault;
use bay_model::Answer;
use block_events::lose_all;
use sv_base::{ActorNo, AssocNo, Moment, Owner};

impl Bay {
    ghost use Rattle.std.specs.Prelude.{◌≡◌, ◌<◌, ◌^◌, None};
    ghost use Rattle.bay_model.specs.declared.step.Step.TheVariants as steps;
    ghost use Rattle.assoc_table.specs.Tables.{IsNumber, ended, row_of, started};
    ghost use Rattle.setting_groups.specs.Grouped.{after_loss};
    ghost use Rattle.bay_model.specs.Points.{lost as lost_deed};
    ghost use Rattle.control_core.specs.Tables.{after_deed};
    ghost use Rattle.block_events.specs.Parting.{after_loss_all};
    ghost use Rattle.bay_histories.specs.Turns.{KeepsLean};
    ghost use Rattle.bay_core.specs.Turns.{Does, IsCounted};

    /// An association begins.
    fn start(&mut self, a: AssocNo, ends: Ends)
        requires number { IsNumber a.0 }
        requires closed { (row_of self.old.rows a.0).ends ≡ None }
        ensures { self.new ≡ record self.old { rows = started self.old.rows a.0 ends } }
    {
        self.associations.start(a, ends);
    }

    /// An association ends, and with it what it has enabled, what it edits and what it has selected; of the blocks that it has
    /// written it is a writer no longer.
    fn end(&mut self, a: AssocNo)
        requires { IsNumber a.0 }
        ensures { self.new ≡ record self.old {
          rows = ended self.old.rows a.0;
          parts = after_loss_all a self.old.latest self.old.parts;
          groups = after_loss a.0 self.old.groups;
          controls = after_deed (lost_deed a.0) self.old.controls;
        } }
    {
        self.associations.end(a);
        lose_all(&mut self.parts, a, self.latest);
        self.groups.lost(a);
    }

    /// Time passes.
    pub(crate) fn tick(&mut self, moment: Moment, actor: ActorNo) -> Result<Answer, StepFault>
        requires { self.old.steps < 2 ^ 62 }
        ensures does { Does self.old self.new (record {
          moment = moment;
          actor = actor.0;
          step = steps.Tick;
        }) result }
        ensures counted { IsCounted self.old self.new result }
        ensures lean { KeepsLean steps.Tick result }
    {
        self.arrive(moment);
        self.count();
        Ok(Answer::Went)
    }

    /// An actor opens an association from an address, for which `writer` takes.
    pub(crate) fn open_association(
        &mut self,
        moment: Moment,
        actor: ActorNo,
        a: AssocNo,
        size: u32,
        writer: ActorNo,
        owner: Owner,
    ) -> Result<Answer, StepFault>
        requires number { IsNumber a.0 }
        requires few { self.old.steps < 2 ^ 62 }
        ensures does { Does self.old self.new (record {
          moment = moment;
          actor = actor.0;
          step = steps.Open a size writer owner;
        }) result }
        ensures counted { IsCounted self.old self.new result }
    {
        if self.associations.is_open(a) {
            return Err(StepFault::IsOpen(a));
        }
        let opener = actor;
        self.arrive(moment);
        self.start(
            a,
            Ends {
                opener,
                writer,
                size,
                owner,
            },
        );
        self.count();
        Ok(Answer::Opened)
    }

    /// An association was released, aborted or lost.
    pub(crate) fn lose(
        &mut self,
        moment: Moment,
        actor: ActorNo,
        a: AssocNo,
    ) -> Result<Answer, StepFault>
        requires number { IsNumber a.0 }
        requires few { self.old.steps < 2 ^ 62 }
        ensures does { Does self.old self.new (record {
          moment = moment;
          actor = actor.0;
          step = steps.Lost a;
        }) result }
        ensures counted { IsCounted self.old self.new result }
        ensures lean { KeepsLean (steps.Lost a) result }
    {
        let Some(opener) = self.associations.opener(a) else {
            return Err(StepFault::NotOpen(a));
        };
        let Some(writer) = self.associations.writer(a) else {
            return Err(StepFault::NotOpen(a));
        };
        if actor.0 != opener.0 && actor.0 != writer.0 {
            return Err(StepFault::NotYours(a));
        }
        self.arrive(moment);
        self.end(a);
        self.count();
        Ok(Answer::Went)
    }
}
