//! The controls of a bay by their numbers, counted from 0 in the order of the configuration (IEC 61850-7-2, the control class
//! model).

ghost use Rattle.std.specs.Prelude.{◌≡◌, map, IfOk};
ghost use Rattle.std.specs.List.{All};
ghost use Rattle.sv_base.specs.declared.config.CtlDef.{CtlDef};
ghost use Rattle.bay_model.specs.Configured.{control_defined};
ghost use Rattle.control_core.specs.Opening.{IsCtlKind};
ghost use Rattle.control_core.specs.Controls.{lost_by, idle};

use crate::control::{Control, Went};
use bay_model::{ApplError, Termination};
use std::alloc::{AllocError, Global};
use std::marker::Model;
use sv_base::{AssocNo, Call, Config, CtlDef, CtlNo, Moment, Value};

/// The controls at a moment. Contracts see the moment, and each control by its number.
#[derive(Drop)]
pub struct Controls {
    moment: Moment,
    controls: Vec<Control>,
}

impl Model for Controls {
    ghost use Rattle.control_core.specs.Tables.{Table};

    ghost Value = { Table };

    ghost use Rattle.std.specs.Coded.{codes};
    ghost use Rattle.sv_base.specs.Tree.{row_code};
    ghost use Rattle.control_core.specs.Coding.{seen_code, phase_code, kind_code};

    ghost coded = { Prim.hlevel (codes, row_code, seen_code, phase_code, kind_code) };

    ghost view = { λ t. record { moment = t.moment; controls = t.controls.items } };
}

/// An association is lost.
fn lose_all(controls: &mut Vec<Control>, a: AssocNo)
    ensures { controls.new.items ≡ map (lost_by a.0) controls.old.items }
{
    let mut place = 0;
    while place < controls.len() {
        controls[place].lost(a);
        place += 1;
    }
}

/// The controls of these lines, in order.
fn open_all(alloc: Global, defs: &[CtlDef]) -> Result<Vec<Control>, AllocError>
    requires { All (λ (d : CtlDef). IsCtlKind d.kind) defs.now }
    ensures { IfOk result (λ v. v.items ≡ map idle (map control_defined defs.now)) }
{
    let mut controls = Vec::with_capacity(alloc, defs.len())?;
    for def in defs {
        controls.push(Control::open(alloc, def)?)?;
    }
    Ok(controls)
}

impl Controls {
    ghost use Rattle.std.specs.Prelude.{◌≡◌, ◌<◌, ◌==◌, true, is_some, Some, None, map, length};
    ghost use Rattle.std.specs.Prelude.{IfOk, IfSome, OnOk, OnErr, if◌then◌else◌};
    ghost use Rattle.std.specs.Option.{option_map};
    ghost use Rattle.std.specs.List.{All};
    ghost use Rattle.sv_base.specs.Same.{value_of};
    ghost use Rattle.sv_base.specs.declared.config.CtlDef.{CtlDef};
    ghost use Rattle.bay_model.specs.Model.{operate as operate_call, select as select_call};
    ghost use Rattle.bay_model.specs.Model.{cancel as cancel_call};
    ghost use Rattle.bay_model.specs.Points.{called, selected_control, finished, blocked};
    ghost use Rattle.bay_model.specs.Points.{lost as lost_deed};
    ghost use Rattle.bay_model.specs.Commands.{command_of, is_command};
    ghost use Rattle.bay_model.specs.Configured.{control_defined};
    ghost use Rattle.control_core.specs.declared.control.Went.TheVariants as outcomes;
    ghost use Rattle.control_core.specs.Opening.{IsCtlKind, IsNumber};
    ghost use Rattle.control_core.specs.Controls.{went_at, can_select_at, due as due_in, stopped};
    ghost use Rattle.control_core.specs.Controls.{error_at, terminations};
    ghost use Rattle.control_core.specs.Answers.{went_of, effect_at};
    ghost use Rattle.control_core.specs.Tables.{control_at, changed, opened_of, at_moment};
    ghost use Rattle.control_core.specs.Tables.{after_deed};

    /// The controls as they are configured, at the least moment: none is selected, runs or is blocked. It takes all the memory
    /// that their calls need, for each control memory for two commands.
    pub fn open(alloc: Global, config: &Config) -> Result<Controls, AllocError>
        requires { All (λ (d : CtlDef). IsCtlKind d.kind) config.now.controls }
        ensures { IfOk result (λ t. t ≡ opened_of (map control_defined config.now.controls)) }
    {
        Ok(Controls {
            moment: Moment::first(),
            controls: open_all(alloc, config.controls.as_slice())?,
        })
    }

    /// How many controls there are.
    pub fn len(&self) -> usize
        ensures { result ≡ length self.now.controls }
    {
        self.controls.len()
    }

    /// There is no control.
    pub fn is_empty(&self) -> bool
        ensures { result ≡ (length self.now.controls == 0) }
    {
        self.controls.is_empty()
    }

    /// The reference of a control, `LD/LN$CO$DO`, lent.
    pub fn reference(&self, c: CtlNo) -> &[u8]
        requires { c.0 < length self.now.controls }
        ensures { result.now ≡ (control_at self.now.controls c.0).config.reference }
    {
        self.controls[c.0 as usize].reference()
    }

    /// Whether a value is of the type of the node that a call writes (IEC 61850-8-1, SBOw, Oper and Cancel), length and range
    /// included.
    pub fn is_typed(&self, c: CtlNo, call: Call, value: &Value) -> bool
        requires { c.0 < length self.now.controls }
        ensures { result ≡ is_command (control_at self.now.controls c.0).config.kind call
            (command_of value.now) }
    {
        self.controls[c.0 as usize].is_typed(call, value)
    }

    /// Time passes: a selection whose time is over stands no longer. It takes no memory, like all calls below but those that are given an allocator.
    pub fn advance(&mut self, now: Moment)
        ensures { self.new ≡ at_moment now self.old }
    {
        self.moment = now;
    }

    /// A read of a control's SBO (IEC 61850-7-2, Select): whether it selects. It does exactly where the control isn't running,
    /// isn't blocked and is selected by nobody.
    pub fn select(&mut self, c: CtlNo, a: AssocNo) -> bool
        requires { c.0 < length self.old.controls }
        ensures answer { result ≡ can_select_at self.old.moment (control_at self.old.controls c.0) }
        ensures left { self.new ≡ (if can_select_at self.old.moment
            (control_at self.old.controls c.0) then
            after_deed (selected_control a.0 c.0) self.old else self.old) }
    {
        self.controls[c.0 as usize].select(self.moment, a)
    }

    /// A write of a control's SBOw (IEC 61850-7-2, SelectWithValue). Fails exactly with the first AddCause: 12 it is running; 19
    /// it is selected by anyone; 9 it is blocked. Then nothing changes.
    pub fn select_with(&mut self, c: CtlNo, a: AssocNo, value: &Value) -> Result<Went, u8>
        requires control { c.0 < length self.old.controls }
        requires typed { is_command (control_at self.old.controls c.0).config.kind select_call
            (command_of value.now) ≡ true }
        ensures went { went_of result ≡ went_at self.old.moment select_call a.0 value.now
            (control_at self.old.controls c.0) }
        ensures plain { IfOk result (λ w. w ≡ outcomes.Plain) }
        ensures selected { OnOk result
            (self.new ≡ after_deed (called a.0 c.0 select_call value.now) self.old) }
        ensures kept { OnErr result (self.new ≡ self.old) }
    {
        self.controls[c.0 as usize].select_with(self.moment, a, value)
    }

    /// A write of a control's Oper (IEC 61850-7-2, Operate); `a` is 1 to 16. Fails exactly with the first AddCause: 1 ctlModel is
    /// 0; 12 it is running; 27 it is selected by another (ctlModel 2 and 4); 18 it isn't selected by the caller (2 and 4); 26
    /// ctlVal, origin, ctlNum or Test differ from those of the select (4); 9 it is blocked. Then nothing changes.
    pub fn operate(&mut self, c: CtlNo, a: AssocNo, value: &Value) -> Result<Went, u8>
        requires number { IsNumber a.0 }
        requires control { c.0 < length self.old.controls }
        requires typed { is_command (control_at self.old.controls c.0).config.kind operate_call
            (command_of value.now) ≡ true }
        ensures went { went_of result ≡ went_at self.old.moment operate_call a.0 value.now
            (control_at self.old.controls c.0) }
        ensures effect { IfOk result (λ w. w ≡ effect_at value.now
            (control_at self.old.controls c.0)) }
        ensures operated { OnOk result
            (self.new ≡ after_deed (called a.0 c.0 operate_call value.now) self.old) }
        ensures kept { OnErr result (self.new ≡ self.old) }
    {
        self.controls[c.0 as usize].operate(self.moment, a, value)
    }

    /// A write of a control's Cancel (IEC 61850-7-2, Cancel). Fails exactly with the first AddCause: 12 it is running; 27 it is
    /// selected by another; 18 it isn't selected by the caller; 26 as for `operate` (ctlModel 4). Then nothing changes.
    pub fn cancel(&mut self, c: CtlNo, a: AssocNo, value: &Value) -> Result<Went, u8>
        requires control { c.0 < length self.old.controls }
        requires typed { is_command (control_at self.old.controls c.0).config.kind cancel_call
            (command_of value.now) ≡ true }
        ensures went { went_of result ≡ went_at self.old.moment cancel_call a.0 value.now
            (control_at self.old.controls c.0) }
        ensures plain { IfOk result (λ w. w ≡ outcomes.Plain) }
        ensures cancelled { OnOk result
            (self.new ≡ after_deed (called a.0 c.0 cancel_call value.now) self.old) }
        ensures kept { OnErr result (self.new ≡ self.old) }
    {
        self.controls[c.0 as usize].cancel(self.moment, a, value)
    }

    /// The process ends what a control executes, well where `good`. Tells the association, 1 to 16, for which a
    /// CommandTermination is to be put (IEC 61850-7-2), positive where `good` and else negative; none exactly where none is due.
    pub fn done(&mut self, c: CtlNo, good: bool) -> Option<AssocNo>
        requires { c.0 < length self.old.controls }
        ensures due { option_map (λ a. a.0) result ≡ due_in
            (control_at self.old.controls c.0).execution }
        ensures number { IfSome result (λ a. IsNumber a.0) }
        ensures left { self.new ≡ after_deed (finished c.0 good) self.old }
    {
        self.controls[c.0 as usize].done()
    }

    /// The termination of a control's command was taken: nothing runs any longer.
    pub fn taken(&mut self, c: CtlNo)
        requires { c.0 < length self.old.controls }
        ensures { self.new ≡ changed self.old c.0 (stopped (control_at self.old.controls c.0)) }
    {
        self.controls[c.0 as usize].taken();
    }

    /// The process blocks or unblocks a control.
    pub fn block(&mut self, c: CtlNo, flag: bool)
        requires { c.0 < length self.old.controls }
        ensures { self.new ≡ after_deed (blocked c.0 flag) self.old }
    {
        self.controls[c.0 as usize].block(flag);
    }

    /// An association is released, aborted or lost: its selections end, and so do its commands whose termination was put; one
    /// whose termination wasn't put runs until it is done.
    pub fn lost(&mut self, a: AssocNo)
        ensures { self.new ≡ after_deed (lost_deed a.0) self.old }
    {
        lose_all(&mut self.controls, a);
    }

    /// The ctlVal of an Oper's value, a truth value or a number.
    pub fn ctl_val(&self, c: CtlNo, value: &Value) -> Value
        requires control { c.0 < length self.now.controls }
        requires typed { is_command (control_at self.now.controls c.0).config.kind operate_call
            (command_of value.now) ≡ true }
        ensures { option_map (λ m. value_of m.value) (command_of value.now) ≡ Some result }
    {
        self.controls[c.0 as usize].ctl_val(value)
    }

    /// The LastApplError of a refused call with this value and AddCause (IEC 61850-8-1), with the reference of what is written.
    pub fn error(
        &self,
        alloc: Global,
        c: CtlNo,
        call: Call,
        value: &Value,
        cause: u8,
    ) -> Result<ApplError, AllocError>
        requires control { c.0 < length self.now.controls }
        requires typed { is_command (control_at self.now.controls c.0).config.kind call
            (command_of value.now) ≡ true }
        ensures { IfOk result (λ e. e ≡ error_at
            (control_at self.now.controls c.0).config.reference call value.now cause) }
    {
        self.controls[c.0 as usize].error(alloc, call, value, cause)
    }

    /// A control executes a command (IEC 61850-7-2, command-already-in-execution).
    pub fn is_running(&self, c: CtlNo) -> bool
        requires { c.0 < length self.now.controls }
        ensures { result ≡ is_some (control_at self.now.controls c.0).execution }
    {
        self.controls[c.0 as usize].is_running()
    }

    /// The value of the Oper that a control executes.
    pub fn oper(&self, alloc: Global, c: CtlNo) -> Result<Value, AllocError>
        requires control { c.0 < length self.now.controls }
        requires running { is_some (control_at self.now.controls c.0).execution ≡ true }
        ensures { IfOk result (λ v. Some v ≡ option_map (λ e. e.oper)
            (control_at self.now.controls c.0).execution) }
    {
        self.controls[c.0 as usize].oper(alloc)
    }

    /// The CommandTermination of what a control executes (IEC 61850-8-1), positive where `good`, else with the AddCause 16.
    pub fn termination(
        &self,
        alloc: Global,
        c: CtlNo,
        good: bool,
    ) -> Result<Termination, AllocError>
        requires control { c.0 < length self.now.controls }
        requires running { is_some (control_at self.now.controls c.0).execution ≡ true }
        ensures { IfOk result (λ t. Some t ≡ terminations c good
            (control_at self.now.controls c.0)) }
    {
        self.controls[c.0 as usize].termination(alloc, c, good)
    }
}
