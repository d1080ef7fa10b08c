//! Reports are taken (IEC 61850-7-2, the Report service).

use crate::bay::Bay;
use bay_histories::StepFault;
use bay_model::{Answer, Output};
use bay_opening::MOST_MEMBERS;
use block_reports::{Blank, Rooms, empty_report, longest_text, report_of};
use block_watch::set_of;
use report_block::first_offer;
use std::alloc::{AllocError, Global};
use sv_base::{ActorNo, AssocNo, Moment};

impl Bay {
    ghost use Rattle.std.specs.Prelude.{◌≡◌, ◌<◌, ◌^◌, [], suc, Some, max, IfOk};
    ghost use Rattle.std.specs.List.{All};
    ghost use Rattle.std.specs.Option.{option_map};
    ghost use Rattle.bay_model.specs.declared.answer.Answer.TheVariants.{Taken};
    ghost use Rattle.bay_model.specs.declared.step.Step.TheVariants as steps;
    ghost use Rattle.assoc_table.specs.declared.waiting.Ends.{Ends};
    ghost use Rattle.assoc_table.specs.Tables.{IsNumber, row_of};
    ghost use Rattle.control_core.specs.Tables.{at_moment};
    ghost use Rattle.block_reports.specs.Blanks.{AreShortTexts, Blank as BlankValue};
    ghost use Rattle.bay_core.specs.Timed.{at_arrival};
    ghost use Rattle.bay_core.specs.Turns.{Does, IsCounted};

    /// The writer of an association takes what waits longest for it, else the report that comes next.
    pub(crate) fn take(
        &mut self,
        alloc: Global,
        moment: Moment,
        actor: ActorNo,
        a: AssocNo,
    ) -> Result<Answer, StepFault>
        requires number { IsNumber a.0 }
        requires few { self.old.steps < 2 ^ 62 }
        ensures does { Does self.old self.new (record {
          moment = moment;
          actor = actor.0;
          step = steps.Take a;
        }) result }
        ensures counted { IsCounted self.old self.new result }
    {
        let Some(writer) = self.associations.writer(a) else {
            self.arrive(moment);
            self.count();
            return Ok(Answer::Closed);
        };
        if actor.0 != writer.0 {
            return Err(StepFault::NotYours(a));
        }
        match self.associations.take(alloc, a) {
            Ok(Some(output)) => Ok(self.give(moment, output)),
            Ok(None) => self.take_report(alloc, moment, actor, a),
            Err(_) => Err(StepFault::Memory),
        }
    }

    /// The writer takes an output that waited.
    fn give(&mut self, moment: Moment, output: Output) -> Answer
        requires { self.old.steps < 2 ^ 62 }
        ensures answer { result ≡ Taken output }
        ensures state { self.new ≡ record
            (at_arrival moment self.old) { steps = suc self.old.steps } }
    {
        self.arrive(moment);
        self.count();
        Answer::Taken(output)
    }

    /// The writer takes where no output waits.
    fn take_report(
        &mut self,
        alloc: Global,
        moment: Moment,
        actor: ActorNo,
        a: AssocNo,
    ) -> Result<Answer, StepFault>
        requires number { IsNumber a.0 }
        requires few { self.old.steps < 2 ^ 62 }
        requires writer { option_map (λ (e : Ends). e.writer)
            (row_of self.old.rows a.0).ends ≡ Some actor }
        requires empty { (row_of self.old.rows a.0).waiting ≡ [] }
        ensures does { Does self.old self.new (record {
          moment = moment;
          actor = actor.0;
          step = steps.Take a;
        }) result }
        ensures counted { IsCounted self.old self.new result }
    {
        if self.dues.have_come(self.latest.later(moment)) {
            self.take_due(alloc, moment, actor, a)
        } else {
            self.take_quiet(alloc, moment, actor, a)
        }
    }

    /// The writer takes at a moment at which no block has anything due: the report is made before the step.
    fn take_quiet(
        &mut self,
        alloc: Global,
        moment: Moment,
        actor: ActorNo,
        a: AssocNo,
    ) -> Result<Answer, StepFault>
        requires number { IsNumber a.0 }
        requires few { self.old.steps < 2 ^ 62 }
        requires writer { option_map (λ (e : Ends). e.writer)
            (row_of self.old.rows a.0).ends ≡ Some actor }
        requires empty { (row_of self.old.rows a.0).waiting ≡ [] }
        requires quiet { at_arrival moment self.old ≡ record self.old {
          latest = max self.old.latest moment;
          controls = at_moment (max self.old.latest moment) self.old.controls;
        } }
        ensures does { Does self.old self.new (record {
          moment = moment;
          actor = actor.0;
          step = steps.Take a;
        }) result }
        ensures counted { IsCounted self.old self.new result }
    {
        let Some(offer) = first_offer(&self.parts, a) else {
            self.arrive(moment);
            self.count();
            return Ok(Answer::Empty);
        };
        let spare = self.spare.take().unwrap_or_else(|| empty_report(alloc));
        let part = &self.parts[offer.block];
        let set = set_of(&self.sets, &self.model, part);
        let report = match report_of(alloc, &self.model, part, &set, &offer, spare) {
            Ok(report) => report,
            Err(_) => return Err(StepFault::Memory),
        };
        let block = offer.block;
        let id = offer.next.id;
        self.arrive(moment);
        self.parts[block].sent(id);
        self.count();
        Ok(Answer::Taken(Output::Report(report)))
    }

    /// Memory for a report of the largest sizes, in the memory that the bay keeps for one; only what that lacks is taken.
    fn blank(&mut self, alloc: Global) -> Result<Blank, AllocError>
        ensures state { self.new ≡ self.old }
        ensures texts { IfOk result
            (λ (b : BlankValue). All (AreShortTexts b.texts) self.old.parts) }
        ensures members { IfOk result (λ (b : BlankValue). b.members ≡ 256) }
    {
        let rooms = self.rooms.take().unwrap_or_else(|| Rooms::none(alloc));
        let spare = self.spare.take().unwrap_or_else(|| empty_report(alloc));
        let texts = longest_text(&self.parts);
        Blank::open(alloc, rooms, spare, texts, MOST_MEMBERS)
    }

    /// Keeps the memory of a blank that no report was made of.
    fn keep(&mut self, alloc: Global, blank: Blank)
        ensures { self.new ≡ self.old }
    {
        let (spare, rooms) = blank.unused(alloc);
        self.spare = Some(spare);
        self.rooms = Some(rooms);
    }

    /// The writer takes at a moment at which a block may have something due: the memory for a report of the largest sizes is made before
    /// the step; then time passes, and the report is put into that memory. What is left of it the bay keeps.
    fn take_due(
        &mut self,
        alloc: Global,
        moment: Moment,
        actor: ActorNo,
        a: AssocNo,
    ) -> Result<Answer, StepFault>
        requires number { IsNumber a.0 }
        requires few { self.old.steps < 2 ^ 62 }
        requires writer { option_map (λ (e : Ends). e.writer)
            (row_of self.old.rows a.0).ends ≡ Some actor }
        requires empty { (row_of self.old.rows a.0).waiting ≡ [] }
        ensures does { Does self.old self.new (record {
          moment = moment;
          actor = actor.0;
          step = steps.Take a;
        }) result }
        ensures counted { IsCounted self.old self.new result }
    {
        let Ok(blank) = self.blank(alloc) else {
            return Err(StepFault::Memory);
        };
        self.arrive(moment);
        let Some(offer) = first_offer(&self.parts, a) else {
            self.keep(alloc, blank);
            self.count();
            return Ok(Answer::Empty);
        };
        let part = &self.parts[offer.block];
        let set = set_of(&self.sets, &self.model, part);
        let (report, rooms) = blank.filled(&self.model, part, &set, &offer);
        let block = offer.block;
        let id = offer.next.id;
        self.rooms = Some(rooms);
        self.parts[block].sent(id);
        self.count();
        Ok(Answer::Taken(Output::Report(report)))
    }
}
