//! The associations and the controls.

ghost use Rattle.std.specs.Prelude.{◌≡◌, ◌<◌, ℕ, Bool, Some, true, length, map};
ghost use Rattle.std.specs.Option.{option_map};
ghost use Rattle.sv_base.specs.Same.{value_of};
ghost use Rattle.bay_model.specs.Model.{operate as operate_call};
ghost use Rattle.bay_model.specs.Commands.{command_of, is_test};
ghost use Rattle.bay_model.specs.Outcomes.{did};
ghost use Rattle.bay_model.specs.Points.{called};
ghost use Rattle.assoc_table.specs.declared.waiting.Waiting.TheVariants.{Termination};
ghost use Rattle.assoc_table.specs.Tables.{IsNumber, row_of, extended};
ghost use Rattle.control_core.specs.Answers.{effect_in};
ghost use Rattle.bay_queues.specs.Calling.{AreFree};
ghost use Rattle.bay_queues.specs.Heard.{heard_with};

use crate::heard::Heard;
use assoc_table::{Assocs, Ends, Waiting};
use bay_model::{Act, ApplError, Output, access_errors};
use control_core::{Controls, Went};
use std::alloc::{AllocError, Global};
use std::marker::Model;
use sv_base::{ActorNo, AssocNo, Call, Config, CtlNo, Moment, Owner, Value};

/// The associations, numbered 1 to 16, and the controls, at most 64. Contracts see a row for each association and the table of the controls.
#[derive(Drop)]
pub struct Queues {
    associations: Assocs,
    controls: Controls,
}

impl Model for Queues {
    ghost use Rattle.bay_queues.specs.Queued.{Queued, IsQueued};

    ghost Value = { Queued };

    ghost use Rattle.std.specs.Coded.{codes};
    ghost use Rattle.sv_base.specs.Tree.{row_code};
    ghost use Rattle.control_core.specs.Coding.{seen_code, phase_code, kind_code};

    ghost coded = { Prim.hlevel (codes, row_code, seen_code, phase_code, kind_code) };

    ghost view = { λ q. record { rows = q.associations; table = q.controls } };

    // of a control at most the termination waits that is due, and once
    ghost invariant = { λ q. IsQueued q.associations q.controls };
}

/// The positive terminations of tests come to wait, in order.
fn end_tests(associations: &mut Assocs, a: AssocNo, tests: &[CtlNo])
    requires number { IsNumber a.0 }
    requires count { length associations.old ≡ 16 }
    requires free { AreFree (row_of associations.old a.0).waiting tests.now }
    ensures { associations.new ≡ extended associations.old a.0
        (map (λ k. Termination k true) tests.now) }
{
    if let [test, more @ ..] = tests {
        let _ = associations.queue(a, Waiting::Termination(*test, true));
        end_tests(associations, a, more);
    }
}

/// An accepted Oper is heard, whose ctlVal is `said`.
fn hear_oper(a: AssocNo, c: CtlNo, value: &Value, went: Went, said: Value, heard: &mut Heard)
    requires said { option_map (λ m. value_of m.value) (command_of value.now) ≡ Some said }
    requires room { length heard.old.codes < heard.old.room }
    ensures { (enhanced : ℕ → Bool) → went ≡ effect_in (is_test value.now) (enhanced c.0)
        → heard.new ≡ heard_with enhanced (did (called a.0 c.0 operate_call value.now)) heard.old }
{
    match went {
        Went::Act => heard.acted(Act {
            control: c,
            value: said,
            by: a,
        }),
        Went::Tested => heard.tested(c),
        Went::Plain => heard.code(Ok(())),
    }
}

/// The same error with its AddCause.
fn because(error: ApplError, cause: u8) -> ApplError
    ensures { result ≡ record error { cause = cause } }
{
    ApplError {
        object: error.object,
        or_cat: error.or_cat,
        or_ident: error.or_ident,
        ctl_num: error.ctl_num,
        cause,
    }
}

impl Queues {
    ghost use Rattle.std.specs.Prelude.{◌≡◌, ◌≤◌, ◌<◌, ◌∷◌, [], ℕ, Some, true, false, nat_le, None};
    ghost use Rattle.std.specs.Prelude.{is_some, map, length, replicate, option_copied};
    ghost use Rattle.std.specs.Prelude.{IfOk, OnOk, OnErr, if◌then◌else◌};
    ghost use Rattle.std.specs.Option.{option_map};
    ghost use Rattle.std.specs.List.{All};
    ghost use Rattle.sv_base.specs.declared.config.CtlDef.{CtlDef};
    ghost use Rattle.bay_model.specs.Configured.{control_defined};
    ghost use Rattle.bay_model.specs.Points.{selected_control, blocked};
    ghost use Rattle.assoc_table.specs.Seats.{closed, replies};
    ghost use Rattle.assoc_table.specs.Tables.{IsNumber, row_of, started};
    ghost use Rattle.bay_model.specs.Model.{operate as operate_call, select as select_call};
    ghost use Rattle.bay_model.specs.Model.{cancel as cancel_call};
    ghost use Rattle.bay_model.specs.Commands.{command_of, is_command};
    ghost use Rattle.control_core.specs.Answers.{went_of};
    ghost use Rattle.control_core.specs.Controls.{can_select_at, due, went_at};
    ghost use Rattle.control_core.specs.Opening.{IsCtlKind};
    ghost use Rattle.control_core.specs.Tables.{control_at, opened_of, at_moment, after_deed};
    ghost use Rattle.bay_queues.specs.Queued.{IsQueued, configs};
    ghost use Rattle.bay_queues.specs.Heard.{heard_with};
    ghost use Rattle.bay_queues.specs.Calling.{blame_in, outcome_at, enhanced_in, after_call};
    ghost use Rattle.bay_queues.specs.Calling.{AreTests, IsDone};
    ghost use Rattle.assoc_table.specs.declared.waiting.Waiting.TheVariants.{Termination};
    ghost use Rattle.bay_queues.specs.Taken.{after_done, after_reply, after_end, oldest, next_of};
    ghost use Rattle.bay_queues.specs.Taken.{after_take, IsNoTermination};

    /// No association is open, and no control is selected, runs or is blocked. All the memory that they ever need is allocated.
    pub fn open(alloc: Global, config: &Config) -> Result<Queues, AllocError>
        requires kinds { All (λ (d : CtlDef). IsCtlKind d.kind) config.now.controls }
        requires few { length config.now.controls ≤ 64 }
        ensures { IfOk result (λ q. q ≡ record {
          rows = replicate 16 closed;
          table = opened_of (map control_defined config.now.controls);
        }) }
    {
        let associations = Assocs::open(alloc)?;
        let controls = Controls::open(alloc, config)?;
        Ok(Queues {
            associations,
            controls,
        })
    }

    /// The association is open.
    pub fn is_open(&self, a: AssocNo) -> bool
        requires { IsNumber a.0 }
        ensures { result ≡ is_some (row_of self.now.rows a.0).ends }
    {
        self.associations.is_open(a)
    }

    /// Who opened it; none exactly where it isn't open.
    pub fn opener(&self, a: AssocNo) -> Option<ActorNo>
        requires { IsNumber a.0 }
        ensures { result ≡ option_map (λ e. e.opener) (row_of self.now.rows a.0).ends }
    {
        self.associations.opener(a)
    }

    /// Who takes for it; none exactly where it isn't open.
    pub fn writer(&self, a: AssocNo) -> Option<ActorNo>
        requires { IsNumber a.0 }
        ensures { result ≡ option_map (λ e. e.writer) (row_of self.now.rows a.0).ends }
    {
        self.associations.writer(a)
    }

    /// Its greatest size of a PDU in octets; none exactly where it isn't open.
    pub fn size(&self, a: AssocNo) -> Option<u32>
        requires { IsNumber a.0 }
        ensures { result ≡ option_map (λ e. e.size) (row_of self.now.rows a.0).ends }
    {
        self.associations.size(a)
    }

    /// Its address; none exactly where it isn't open.
    pub fn owner(&self, a: AssocNo) -> Option<Owner>
        requires { IsNumber a.0 }
        ensures { result ≡ option_map (λ e. e.owner) (row_of self.now.rows a.0).ends }
    {
        self.associations.owner(a)
    }

    /// 16 replies wait for an association.
    pub fn is_full(&self, a: AssocNo) -> bool
        requires { IsNumber a.0 }
        ensures { result ≡ nat_le 16 (replies (row_of self.now.rows a.0).waiting) }
    {
        self.associations.is_full(a)
    }

    /// Opens an association that isn't open. It takes no memory, like all calls below but those that are given an allocator.
    pub fn start(&mut self, a: AssocNo, ends: Ends)
        requires number { IsNumber a.0 }
        requires closed { (row_of self.old.rows a.0).ends ≡ None }
        ensures { self.new ≡ record self.old { rows = started self.old.rows a.0 ends } }
    {
        self.associations.start(a, ends);
    }

    /// Ends an association: what waits for it is dropped, its selections end, and so do its commands whose termination was put.
    pub fn end(&mut self, a: AssocNo)
        requires { IsNumber a.0 }
        ensures { self.new ≡ after_end a.0 self.old }
    {
        self.associations.end(a);
        self.controls.lost(a);
    }

    /// Time passes for the controls.
    pub fn advance(&mut self, now: Moment)
        ensures { self.new ≡ record self.old { table = at_moment now self.old.table } }
    {
        self.controls.advance(now);
    }

    /// How many controls there are.
    pub fn count(&self) -> usize
        ensures { result ≡ length self.now.table.controls }
    {
        self.controls.len()
    }

    /// The reference of a control, `LD/LN$CO$DO`, lent.
    pub fn reference(&self, c: CtlNo) -> &[u8]
        requires { c.0 < length self.now.table.controls }
        ensures { result.now ≡ (control_at self.now.table.controls c.0).config.reference }
    {
        self.controls.reference(c)
    }

    /// The process ends what a control executes: the termination is put where one is due.
    pub fn done(&mut self, c: CtlNo, good: bool)
        requires { c.0 < length self.old.table.controls }
        ensures left { self.new ≡ after_done c good self.old }
        ensures queued { IsQueued self.old.rows self.old.table }
        // That association has a number.
        ensures number { (x : ℕ) → due (control_at self.old.table.controls c.0).execution
            ≡ Some x → IsNumber x }
    {
        if let Some(a) = self.controls.done(c, good) {
            let _ = self.associations.queue(a, Waiting::Termination(c, good));
        }
    }

    /// The process blocks or unblocks a control.
    pub fn block(&mut self, c: CtlNo, flag: bool)
        requires { c.0 < length self.old.table.controls }
        ensures { self.new ≡ record self.old {
          table = after_deed
              (blocked c.0 flag) self.old.table;
        } }
    {
        self.controls.block(c, flag);
    }

    /// An association reads a control's SBO: whether that selects it.
    pub fn select(&mut self, c: CtlNo, a: AssocNo) -> bool
        requires { c.0 < length self.old.table.controls }
        ensures answer { result ≡ can_select_at self.old.table.moment
            (control_at self.old.table.controls c.0) }
        ensures left { self.new ≡ (if can_select_at self.old.table.moment
            (control_at self.old.table.controls c.0)
            then record self.old { table = after_deed (selected_control a.0 c.0) self.old.table }
            else self.old) }
    {
        self.controls.select(c, a)
    }

    /// The LastApplError that a call would have, without its AddCause; none exactly where the value isn't of the type of the call's node.
    pub fn blame(
        &self,
        alloc: Global,
        c: CtlNo,
        call: Call,
        value: &Value,
    ) -> Result<Option<ApplError>, AllocError>
        requires { c.0 < length self.now.table.controls }
        ensures { IfOk result (λ e. e ≡ blame_in (configs self.now.table) c.0 call value.now) }
    {
        if !self.controls.is_typed(c, call, value) {
            return Ok(None);
        }
        let error = self.controls.error(alloc, c, call, value, 0)?;
        Ok(Some(error))
    }

    /// An association writes a control's SBOw with a value of its type.
    fn select_with(
        &mut self,
        a: AssocNo,
        c: CtlNo,
        value: &Value,
        heard: &mut Heard,
    ) -> Result<(), u8>
        requires control { c.0 < length self.old.table.controls }
        requires typed { is_command (control_at self.old.table.controls c.0).config.kind select_call
            (command_of value.now) ≡ true }
        requires room { length heard.old.codes < heard.old.room }
        ensures went { went_of result ≡ went_at self.old.table.moment select_call a.0 value.now
            (control_at self.old.table.controls c.0) }
        ensures did { OnOk result
            (IsDone a.0 c.0 select_call value.now self.old self.new heard.old heard.new) }
        ensures kept { OnErr result ((self.new ≡ self.old) × (heard.new ≡ heard.old)) }
    {
        self.controls.select_with(c, a, value)?;
        heard.code(Ok(()));
        Ok(())
    }

    /// An association writes a control's Cancel with a value of its type.
    fn cancel(&mut self, a: AssocNo, c: CtlNo, value: &Value, heard: &mut Heard) -> Result<(), u8>
        requires control { c.0 < length self.old.table.controls }
        requires typed { is_command (control_at self.old.table.controls c.0).config.kind cancel_call
            (command_of value.now) ≡ true }
        requires room { length heard.old.codes < heard.old.room }
        ensures went { went_of result ≡ went_at self.old.table.moment cancel_call a.0 value.now
            (control_at self.old.table.controls c.0) }
        ensures did { OnOk result
            (IsDone a.0 c.0 cancel_call value.now self.old self.new heard.old heard.new) }
        ensures kept { OnErr result ((self.new ≡ self.old) × (heard.new ≡ heard.old)) }
    {
        self.controls.cancel(c, a, value)?;
        heard.code(Ok(()));
        Ok(())
    }

    /// An association writes a control's Oper with a value of its type.
    fn operate(&mut self, a: AssocNo, c: CtlNo, value: &Value, heard: &mut Heard) -> Result<(), u8>
        requires number { IsNumber a.0 }
        requires control { c.0 < length self.old.table.controls }
        requires typed { is_command
            (control_at self.old.table.controls c.0).config.kind operate_call
            (command_of value.now) ≡ true }
        requires room { length heard.old.codes < heard.old.room }
        ensures went { went_of result ≡ went_at self.old.table.moment operate_call a.0 value.now
            (control_at self.old.table.controls c.0) }
        ensures did { OnOk result
            (IsDone a.0 c.0 operate_call value.now self.old self.new heard.old heard.new) }
        ensures kept { OnErr result ((self.new ≡ self.old) × (heard.new ≡ heard.old)) }
    {
        let said = self.controls.ctl_val(c, value);
        let went = self.controls.operate(c, a, value)?;
        hear_oper(a, c, value, went, said, heard);
        Ok(())
    }

    /// An association writes a control's SBOw, Oper or Cancel with a value of its type.
    fn judge(
        &mut self,
        a: AssocNo,
        c: CtlNo,
        call: Call,
        value: &Value,
        heard: &mut Heard,
    ) -> Result<(), u8>
        requires number { IsNumber a.0 }
        requires control { c.0 < length self.old.table.controls }
        requires typed { is_command (control_at self.old.table.controls c.0).config.kind call
            (command_of value.now) ≡ true }
        requires room { length heard.old.codes < heard.old.room }
        ensures went { went_of result ≡ went_at self.old.table.moment call a.0 value.now
            (control_at self.old.table.controls c.0) }
        ensures did { OnOk result
            (IsDone a.0 c.0 call value.now self.old self.new heard.old heard.new) }
        ensures kept { OnErr result ((self.new ≡ self.old) × (heard.new ≡ heard.old)) }
    {
        match call {
            Call::Select => self.select_with(a, c, value, heard),
            Call::Operate => self.operate(a, c, value, heard),
            Call::Cancel => self.cancel(a, c, value, heard),
        }
    }

    /// An association writes a control's SBOw, Oper or Cancel, of which `blame` is the error without its AddCause. A value that isn't of
    /// the type is refused with 7; else the call is accepted, or refused with 3 and the error.
    pub fn call(
        &mut self,
        a: AssocNo,
        c: CtlNo,
        call: Call,
        value: &Value,
        blame: Option<ApplError>,
        heard: &mut Heard,
    )
        requires number { IsNumber a.0 }
        requires control { c.0 < length self.old.table.controls }
        requires blame { blame ≡ blame_in (configs self.old.table) c.0 call value.now }
        requires room { length heard.old.codes < heard.old.room }
        ensures heard { heard.new ≡ heard_with (enhanced_in self.old.table)
            (outcome_at self.old.table a.0 c.0 call value.now) heard.old }
        ensures left { self.new ≡ after_call a.0 c.0 call value.now self.old }
        ensures tests { AreTests self.old a.0 heard.old.tests
            → AreTests self.new a.0 heard.new.tests }
    {
        let Some(error) = blame else {
            heard.code(Err(access_errors::TYPE_INCONSISTENT));
            return;
        };
        if let Err(cause) = self.judge(a, c, call, value, heard) {
            heard.barred(because(error, cause));
        }
    }

    /// Puts a reply after what waits for an association, and after it the positive terminations of the request's tests.
    pub fn answer(&mut self, a: AssocNo, output: Output, tests: &[CtlNo])
        requires number { IsNumber a.0 }
        requires room { nat_le 16 (replies (row_of self.old.rows a.0).waiting) ≡ false }
        requires tests { AreTests self.old a.0 tests.now }
        ensures { self.new ≡ after_reply a.0 output tests.now self.old }
    {
        let _ = self.associations.queue(a, Waiting::Reply(output));
        end_tests(&mut self.associations, a, tests);
    }

    /// The termination of a control that waits longest for an association.
    fn take_termination(
        &mut self,
        alloc: Global,
        a: AssocNo,
        c: CtlNo,
        good: bool,
    ) -> Result<Output, AllocError>
        requires number { IsNumber a.0 }
        requires oldest { oldest a.0 self.old ≡ Some (Termination c good) }
        ensures value { IfOk result (λ o. Some o ≡ next_of a.0 self.old) }
        ensures left { OnOk result (self.new ≡ after_take a.0 self.old) }
        ensures kept { OnErr result (self.new ≡ self.old) }
    {
        let termination = self.controls.termination(alloc, c, good)?;
        let _ = self.associations.pop(a);
        self.controls.taken(c);
        Ok(Output::Termination(termination))
    }

    /// Takes the reply that waits longest for an association, if one does.
    fn take_reply(&mut self, a: AssocNo) -> Option<Output>
        requires number { IsNumber a.0 }
        requires reply { IsNoTermination (oldest a.0 self.old) }
        ensures value { result ≡ next_of a.0 self.old }
        ensures left { self.new ≡ after_take a.0 self.old }
    {
        match self.associations.pop(a) {
            Some(Waiting::Reply(output)) => Some(output),
            Some(Waiting::Termination(..)) => unreachable!(),
            None => None,
        }
    }

    /// Takes what waits longest for an association; none exactly where nothing waits. Memory is wanted for a termination alone, and
    /// where it is lacking nothing changes.
    pub fn take(&mut self, alloc: Global, a: AssocNo) -> Result<Option<Output>, AllocError>
        requires { IsNumber a.0 }
        ensures queued { IsQueued self.old.rows self.old.table }
        ensures value { IfOk result (λ o. o ≡ next_of a.0 self.old) }
        ensures left { OnOk result (self.new ≡ after_take a.0 self.old) }
        ensures kept { OnErr result (self.new ≡ self.old) }
    {
        let (c, good) = match self.associations.oldest(a) {
            Some(Waiting::Termination(c, good)) => (*c, *good),
            _ => return Ok(self.take_reply(a)),
        };
        let output = self.take_termination(alloc, a, c, good)?;
        Ok(Some(output))
    }
}
