//! Writes of report blocks' components.

ghost use Rattle.std.specs.Prelude.{◌≡◌, true, is_some};
ghost use Rattle.assoc_table.specs.Tables.{IsNumber, row_of};
ghost use Rattle.bay_core.specs.Put.{owner_in};
ghost use Rattle.bay_core.specs.Written.{named_by};

use crate::bay::Bay;
use bay_histories::StepFault;
use bay_model::{Answer, Comp};
use bay_queues::Queues;
use block_watch::set_of;
use data_sets::SetBook;
use report_block::Written;
use sv_base::{ActorNo, AssocNo, BlockNo, Moment, Owner, Value};

/// The number of the data set that a written DatSet names; none where it names none, and where another component is written.
fn set_named(book: &SetBook, comp: Comp, value: &Value) -> Option<usize>
    ensures { result ≡ named_by comp value.now book.now }
{
    match (comp, value) {
        (Comp::DatSet, Value::Text(reference)) => book.number_referred(reference.as_slice()),
        _ => None,
    }
}

/// The address of an open association.
fn owner_of(associations: &Queues, a: AssocNo) -> Owner
    requires number { IsNumber a.0 }
    requires is_open { is_some (row_of associations.now.rows a.0).ends ≡ true }
    ensures { result ≡ owner_in associations.now.rows a.0 }
{
    match associations.owner(a) {
        Some(owner) => owner,
        None => unreachable!(),
    }
}

impl Bay {
    ghost use Rattle.std.specs.Prelude.{◌≡◌, ◌<◌, ◌^◌, Some, length, slice_get};
    ghost use Rattle.report_block.specs.declared.block.ReportBlock.{ReportBlock as ReportBlockValue};
    ghost use Rattle.report_block.specs.Writes.{without_effect};
    ghost use Rattle.bay_core.specs.Put.{answer_at, written_at, AreGeneral, IsOpenAt};
    ghost use Rattle.bay_model.specs.declared.step.Step.TheVariants as steps;
    ghost use Rattle.assoc_table.specs.Tables.{IsNumber};
    ghost use Rattle.bay_histories.specs.Turns.{KeepsLean};
    ghost use Rattle.bay_core.specs.Turns.{Does, IsCounted};

    /// An open association writes a component of a block, at the moment that time has come to. It takes no memory.
    pub(crate) fn write_at_arrival(
        &mut self,
        a: AssocNo,
        b: BlockNo,
        comp: Comp,
        value: &Value,
    ) -> Result<(), u8>
        requires there { b.0 < length self.old.parts }
        requires number { IsNumber a.0 }
        requires is_open { IsOpenAt self.old a.0 }
        ensures kept { (self.new.config ≡ self.old.config) × (self.new.steps ≡ self.old.steps) }
        ensures answer { (part : ReportBlockValue) → slice_get self.old.parts b.0 ≡ Some part
            → result ≡ without_effect (answer_at a comp value.now part self.old) }
        ensures written { (part : ReportBlockValue) → slice_get self.old.parts b.0 ≡ Some part
            → self.new ≡ written_at a b.0 comp value.now part self.old }
        ensures general { (part : ReportBlockValue) → slice_get self.old.parts b.0 ≡ Some part
            → AreGeneral a b.0 comp value.now part self.old }
    {
        let written = Written {
            by: a,
            owner: owner_of(&self.associations, a),
            comp,
            value,
            named: set_named(&self.sets, comp, value),
        };
        let part = &mut self.parts[b.0 as usize];
        let set = set_of(&self.sets, &self.model, part);
        let answer = part.write_any(
            &written,
            self.values.store(),
            &set,
            self.latest,
            self.steps,
            &mut self.octets,
        );
        self.watch.follow(b, comp, part, &self.sets, &self.model);
        let due = part.due_at(self.latest);
        self.dues.put(b.0 as usize, due);
        answer
    }

    /// An association writes a component of a block. It takes no memory.
    pub(crate) fn write(
        &mut self,
        moment: Moment,
        actor: ActorNo,
        a: AssocNo,
        b: BlockNo,
        comp: Comp,
        value: &Value,
    ) -> Result<Answer, StepFault>
        requires number { IsNumber a.0 }
        requires block { b.0 < length self.old.config.blocks }
        requires few { self.old.steps < 2 ^ 62 }
        ensures does { Does self.old self.new (record {
          moment = moment;
          actor = actor.0;
          step = steps.Write a b comp value.now;
        }) result }
        ensures counted { IsCounted self.old self.new result }
        ensures lean { KeepsLean (steps.Write a b comp value.now) result }
    {
        let Some(opener) = self.associations.opener(a) else {
            return Err(StepFault::NotOpen(a));
        };
        if actor.0 != opener.0 {
            return Err(StepFault::NotYours(a));
        }
        self.arrive(moment);
        let answer = self.write_at_arrival(a, b, comp, value);
        self.count();
        Ok(Answer::Wrote(answer))
    }
}
