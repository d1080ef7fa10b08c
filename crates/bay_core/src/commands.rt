//! The calls of controls in a bay (IEC 61850-7-2, Select, SelectWithValue, Operate, Cancel and CommandTermination): those of a request,
//! and what the process does with a control.

ghost use Rattle.std.specs.Prelude.{◌≡◌};

use crate::bay::Bay;
use bay_histories::StepFault;
use bay_model::{Answer, ApplError, Target, Write};
use bay_queues::Heard;
use object_model::What;
use std::alloc::{AllocError, Global};
use sv_base::{ActorNo, AssocNo, Call, CtlNo, Moment, NodeId, Value};

impl Bay {
    ghost use Rattle.std.specs.Prelude.{◌≡◌, ◌<◌, ◌^◌, ℕ, true, length, map, Some, IfOk};
    ghost use Rattle.std.specs.List.{All};
    ghost use Rattle.sv_base.specs.declared.numbers.NodeId.{NodeId as NodeNo};
    ghost use Rattle.bay_model.specs.declared.step.Step.TheVariants as steps;
    ghost use Rattle.bay_model.specs.declared.request.Write.{Write as WriteValue};
    ghost use Rattle.bay_model.specs.Named.{nodes as nodes_of};
    ghost use Rattle.bay_model.specs.Singles.{outcome_of, write_to, writes};
    ghost use Rattle.assoc_table.specs.Tables.{IsNumber};
    ghost use Rattle.object_model.specs.Fits.{is_sound};
    ghost use Rattle.bay_core.specs.Asked.{AreFit, IsFit};
    ghost use Rattle.control_core.specs.Controls.{due};
    ghost use Rattle.control_core.specs.Tables.{control_at};
    ghost use Rattle.bay_model.specs.Configured.{control_defined};
    ghost use Rattle.bay_queues.specs.Calling.{blame_in, enhanced_in, outcome_at};
    ghost use Rattle.bay_queues.specs.Heard.{heard_with};
    ghost use Rattle.bay_queues.specs.Queued.{IsQueued};
    ghost use Rattle.bay_core.specs.Put.{IsOpenAt};
    ghost use Rattle.bay_core.specs.Commanded.{after_block, after_call, after_end, blame_at};
    ghost use Rattle.bay_core.specs.Commanded.{blame_to, AreTestsOf, IsSingle};
    ghost use Rattle.bay_histories.specs.Turns.{KeepsLean};
    ghost use Rattle.bay_core.specs.Turns.{Does, IsCounted};

    /// The LastApplError that the write of a node would have, without its AddCause; none where it isn't a command, or the value isn't of
    /// its type.
    fn blame_of(
        &self,
        alloc: Global,
        node: NodeId,
        value: &Value,
    ) -> Result<Option<ApplError>, AllocError>
        requires there { node.0 < length (nodes_of self.now.config) }
        ensures { IfOk result (λ e. e ≡ blame_at self.now.config node.0 value.now) }
    {
        match self.model.role_of(node) {
            What::Calling(control, call) => {
                self.associations.blame(alloc, CtlNo(control), call, value)
            }
            _ => Ok(None),
        }
    }

    /// The same of a write of a request.
    fn blame_of_write(&self, alloc: Global, write: &Write) -> Result<Option<ApplError>, AllocError>
        requires { IsFit self.now.config write.now.target write.now.value }
        ensures { IfOk result (λ e. e ≡ blame_to self.now.config write.now.target write.now.value) }
    {
        match &write.target {
            Target::Node(node, _) => self.blame_of(alloc, *node, &write.value),
            Target::Missing(_) | Target::Alternate(_) => Ok(None),
        }
    }

    /// The LastApplErrors that the writes of a request would have, in order.
    pub(crate) fn blames(
        &self,
        alloc: Global,
        writes: &[Write],
    ) -> Result<Vec<Option<ApplError>>, AllocError>
        requires { AreFit self.now.config writes.now }
        ensures { IfOk result (λ v. v.items
            ≡ map (λ (w : WriteValue). blame_to self.now.config w.target w.value) writes.now) }
    {
        let mut blames = Vec::with_capacity(alloc, writes.len())?;
        for write in writes {
            blames.push(self.blame_of_write(alloc, write)?)?;
        }
        Ok(blames)
    }

    /// An association writes the SBOw, Oper or Cancel of a control, at the moment that time has come to. It takes no memory.
    fn call(
        &mut self,
        a: AssocNo,
        control: CtlNo,
        call: Call,
        value: &Value,
        blame: Option<ApplError>,
        heard: &mut Heard,
    )
        requires number { IsNumber a.0 }
        requires control { control.0 < length self.old.config.controls }
        requires blame { blame ≡ blame_in
            (map control_defined self.old.config.controls) control.0 call value.now }
        requires room { length heard.old.codes < heard.old.room }
        ensures state { self.new ≡ after_call a.0 control.0 call value.now self.old }
        ensures heard { heard.new ≡ heard_with (enhanced_in self.old.controls)
            (outcome_at self.old.controls a.0 control.0 call value.now) heard.old }
        ensures tests { AreTestsOf self.old a.0 heard.old.tests
            → AreTestsOf self.new a.0 heard.new.tests }
    {
        self.associations
            .call(a, control, call, value, blame, heard);
    }

    /// An association writes a node in its turn; `blame` is the LastApplError that a command would have.
    pub(crate) fn write_in_turn(
        &mut self,
        a: AssocNo,
        node: NodeId,
        value: &Value,
        blame: Option<ApplError>,
        heard: &mut Heard,
    )
        requires number { IsNumber a.0 }
        requires is_open { IsOpenAt self.old a.0 }
        requires there { node.0 < length (nodes_of self.old.config) }
        requires sound { is_sound value.now ≡ true }
        requires blame { blame ≡ blame_at self.old.config node.0 value.now }
        requires room { length heard.old.codes < heard.old.room }
        ensures single { IsSingle self.old self.new a.0 heard.old heard.new
            (λ m past. outcome_of m a.0 (writes node.0 value.now) past) }
    {
        match self.model.role_of(node) {
            What::Calling(control, call) => {
                self.call(a, CtlNo(control), call, value, blame, heard);
            }
            _ => {
                let code = self.write_node(a, node, value);
                heard.code(code);
            }
        }
    }

    /// What a control executes ends, at the moment that time has come to. It takes no memory.
    fn end_execution(&mut self, control: CtlNo, good: bool)
        requires { control.0 < length self.old.config.controls }
        ensures state { self.new ≡ after_end control good self.old }
        ensures queued { IsQueued self.old.rows self.old.controls }
        ensures number { (a : ℕ) → due (control_at self.old.controls.controls control.0).execution
            ≡ Some a → IsNumber a }
    {
        self.associations.done(control, good);
    }

    /// A control is blocked or unblocked. It takes no memory.
    fn block(&mut self, control: CtlNo, on: bool)
        requires { control.0 < length self.old.config.controls }
        ensures { self.new ≡ after_block control on self.old }
    {
        self.associations.block(control, on);
    }

    /// The process ends what a control executes (IEC 61850-7-2, CommandTermination). It takes no memory.
    pub(crate) fn end_command(
        &mut self,
        moment: Moment,
        actor: ActorNo,
        control: CtlNo,
        good: bool,
    ) -> Result<Answer, StepFault>
        requires control { control.0 < length self.old.config.controls }
        requires few { self.old.steps < 2 ^ 62 }
        ensures does { Does self.old self.new (record {
          moment = moment;
          actor = actor.0;
          step = steps.Done control good;
        }) result }
        ensures counted { IsCounted self.old self.new result }
        ensures lean { KeepsLean (steps.Done control good) result }
    {
        self.arrive(moment);
        self.end_execution(control, good);
        self.count();
        Ok(Answer::Went)
    }

    /// The process blocks a control or unblocks it (IEC 61850-7-2, blocked-by-process). It takes no memory.
    pub(crate) fn block_control(
        &mut self,
        moment: Moment,
        actor: ActorNo,
        control: CtlNo,
        on: bool,
    ) -> Result<Answer, StepFault>
        requires control { control.0 < length self.old.config.controls }
        requires few { self.old.steps < 2 ^ 62 }
        ensures does { Does self.old self.new (record {
          moment = moment;
          actor = actor.0;
          step = steps.Block control on;
        }) result }
        ensures counted { IsCounted self.old self.new result }
        ensures lean { KeepsLean (steps.Block control on) result }
    {
        self.arrive(moment);
        self.block(control, on);
        self.count();
        Ok(Answer::Went)
    }
}
