//! A control: who has selected it, which command it executes, and what a call comes to (IEC 61850-7-2, the control class model).

ghost use Rattle.std.specs.Prelude.{◌≡◌, IfOk};
ghost use Rattle.sv_base.specs.Kinds.{kind_of as kind_in_model};
ghost use Rattle.bay_model.specs.Configured.{control_defined};
ghost use Rattle.control_core.specs.Commands.{kind_in};
ghost use Rattle.control_core.specs.Opening.{IsCtlKind};
ghost use Rattle.sv_base.specs.declared.ctl_models.TheConstants.{OPERATE_ONCE};

use crate::command::{CommandRef, CtlKind, read};
use crate::executed::Executed;
use crate::kept_command::error_of;
use crate::selected::Selected;
use bay_model::{ApplError, Termination, add_causes};
use std::alloc::{AllocError, Global};
use std::marker::Model;
use sv_base::{AssocNo, Call, CtlDef, CtlNo, Moment, Octs, TypeOf, Value, ctl_models};

/// What an accepted command of a control does (IEC 61850-7-2, the control class model).
#[derive(Clone, Copy, Debug, PartialEq, Eq)]
pub enum Went {
    /// An Oper with Test FALSE: the control acts.
    Act,
    /// An Oper with Test TRUE under enhanced security: its positive CommandTermination follows the reply.
    Tested,
    /// Any other: an SBOw, a Cancel, or an Oper with Test TRUE under normal security.
    Plain,
}

/// A control. Contracts see how it is configured, who has selected it, what runs, and whether it is blocked.
#[derive(Drop)]
pub struct Control {
    reference: Octs,
    model: u8,
    timeout: u32,
    class: u8,
    kind: CtlKind,
    selected: Selected,
    executed: Executed,
    is_blocked: bool,
}

impl Model for Control {
    ghost use Rattle.control_core.specs.Commands.{kind_in};
    ghost use Rattle.control_core.specs.Controls.{ControlState};

    ghost Value = { ControlState };

    ghost use Rattle.std.specs.Coded.{codes};
    ghost use Rattle.sv_base.specs.Tree.{row_code};
    ghost use Rattle.control_core.specs.Coding.{seen_code, phase_code, kind_code};

    ghost coded = { Prim.hlevel (codes, row_code, seen_code, phase_code, kind_code) };

    ghost view = { λ s. record {
      config = record {
        reference = s.reference;
        model = s.model;
        timeout = s.timeout;
        sbo_class = s.class;
        kind = kind_in s.kind;
      };
      selection = s.selected;
      execution = s.executed;
      is_blocked = s.is_blocked;
    } };
}

/// `LD/LN$CO$DO`.
fn reference_of(alloc: Global, def: &CtlDef) -> Result<Octs, AllocError>
    ensures { IfOk result (λ r. r ≡ (control_defined def.now).reference) }
{
    let mut reference = Vec::new(alloc);
    reference.extend_from_slice(def.domain.as_slice())?;
    reference.extend_from_slice(b"/")?;
    reference.extend_from_slice(def.ln.as_slice())?;
    reference.extend_from_slice(b"$CO$")?;
    reference.extend_from_slice(def.path.as_slice())?;
    Ok(Octs::from_vec(reference))
}

fn kind_of(kind: &TypeOf) -> CtlKind
    requires { IsCtlKind kind.now }
    ensures { kind_in result ≡ kind_in_model kind.now }
{
    match kind {
        TypeOf::Bool => CtlKind::Bool,
        _ => CtlKind::Int32,
    }
}

impl Control {
    ghost use Rattle.std.specs.Prelude.{◌≡◌, ◌≤◌, ◌<◌, ◌++◌, true, false, is_some, Some, None};
    ghost use Rattle.std.specs.Prelude.{length, IfOk, IfSome, OnOk, OnErr, ◌==◌, if◌then◌else◌};
    ghost use Rattle.std.specs.Option.{option_map};
    ghost use Rattle.sv_base.specs.Seen.{row_of};
    ghost use Rattle.bay_model.specs.Model.{operate as operate_call, select as select_call};
    ghost use Rattle.bay_model.specs.Model.{cancel as cancel_call};
    ghost use Rattle.bay_model.specs.Commands.{is_rest, command_of, is_command};
    ghost use Rattle.bay_model.specs.Calls.{first_cause};
    ghost use Rattle.bay_model.specs.Configured.{control_defined};
    ghost use Rattle.control_core.specs.Opening.{IsCtlKind, IsNumber};
    ghost use Rattle.control_core.specs.Commands.{said, command_said, value_said, seen_val};
    ghost use Rattle.bay_model.specs.Selections.{without_a};
    ghost use Rattle.control_core.specs.Controls.{idle, causes_at, went_at, can_select_at};
    ghost use Rattle.control_core.specs.Controls.{selected_by, cancelled_by, operated_by};
    ghost use Rattle.control_core.specs.Controls.{done as done_to};
    ghost use Rattle.control_core.specs.Controls.{due as due_in, lost_by, stopped, blocked_as};
    ghost use Rattle.control_core.specs.Controls.{is_selectable as is_selectable_in};
    ghost use Rattle.control_core.specs.Controls.{is_enhanced as is_enhanced_in, error_at};
    ghost use Rattle.control_core.specs.Controls.{terminations, begun, renewed};
    ghost use Rattle.sv_base.specs.Same.{value_of};
    ghost use Rattle.control_core.specs.declared.control.Went.TheVariants as outcomes;
    ghost use Rattle.control_core.specs.Answers.{went_of, effect_in, effect_at};

    /// A control as it is configured. It takes all the memory that its calls need.
    pub fn open(alloc: Global, def: &CtlDef) -> Result<Control, AllocError>
        requires { IsCtlKind def.now.kind }
        ensures { IfOk result (λ s. s ≡ idle (control_defined def.now)) }
    {
        Ok(Control {
            reference: reference_of(alloc, def)?,
            model: def.model,
            timeout: def.timeout,
            class: def.class,
            kind: kind_of(&def.kind),
            selected: Selected::new(alloc)?,
            executed: Executed::new(alloc)?,
            is_blocked: false,
        })
    }

    /// SBO control, with normal or enhanced security.
    fn is_selectable(&self) -> bool
        ensures { result ≡ is_selectable_in self.now }
    {
        self.model == ctl_models::SBO_NORMAL || self.model == ctl_models::SBO_ENHANCED
    }

    /// Direct or SBO control with enhanced security.
    fn is_enhanced(&self) -> bool
        ensures { result ≡ is_enhanced_in self.now }
    {
        self.model == ctl_models::DIRECT_ENHANCED || self.model == ctl_models::SBO_ENHANCED
    }

    fn cause_of_select(&self, now: Moment) -> Option<u8>
        ensures { result ≡ first_cause (causes_at now select_call 0 None self.now) }
    {
        if self.executed.is_running() {
            Some(add_causes::COMMAND_ALREADY_IN_EXECUTION)
        } else if self.selected.is_standing(now, self.timeout) {
            Some(add_causes::OBJECT_ALREADY_SELECTED)
        } else if self.is_blocked {
            Some(add_causes::BLOCKED_BY_PROCESS)
        } else {
            None
        }
    }

    fn cause_of_operate(&self, now: Moment, a: AssocNo, command: &CommandRef<'_>) -> Option<u8>
        ensures { result ≡ first_cause (causes_at now operate_call a.0
            (Some (command_said (said command.now))) self.now) }
    {
        if self.model == ctl_models::STATUS_ONLY {
            Some(add_causes::NOT_SUPPORTED)
        } else if self.executed.is_running() {
            Some(add_causes::COMMAND_ALREADY_IN_EXECUTION)
        } else if self.is_selectable() && self.selected.is_by_another(now, self.timeout, a) {
            Some(add_causes::LOCKED_BY_OTHER_CLIENT)
        } else if self.is_selectable() && !self.selected.is_by(now, self.timeout, a) {
            Some(add_causes::OBJECT_NOT_SELECTED)
        } else if self.model == ctl_models::SBO_ENHANCED
            && self.selected.is_other(now, self.timeout, command)
        {
            Some(add_causes::INCONSISTENT_PARAMETERS)
        } else if self.is_blocked {
            Some(add_causes::BLOCKED_BY_PROCESS)
        } else {
            None
        }
    }

    fn cause_of_cancel(&self, now: Moment, a: AssocNo, command: &CommandRef<'_>) -> Option<u8>
        ensures { result ≡ first_cause (causes_at now cancel_call a.0
            (Some (command_said (said command.now))) self.now) }
    {
        if self.executed.is_running() {
            Some(add_causes::COMMAND_ALREADY_IN_EXECUTION)
        } else if self.selected.is_by_another(now, self.timeout, a) {
            Some(add_causes::LOCKED_BY_OTHER_CLIENT)
        } else if !self.selected.is_by(now, self.timeout, a) {
            Some(add_causes::OBJECT_NOT_SELECTED)
        } else if self.model == ctl_models::SBO_ENHANCED
            && self.selected.is_other(now, self.timeout, command)
        {
            Some(add_causes::INCONSISTENT_PARAMETERS)
        } else {
            None
        }
    }

    fn cause(&self, now: Moment, call: Call, a: AssocNo, command: &CommandRef<'_>) -> Option<u8>
        ensures { result ≡ first_cause
            (causes_at now call a.0 (Some (command_said (said command.now))) self.now) }
    {
        match call {
            Call::Select => self.cause_of_select(now),
            Call::Operate => self.cause_of_operate(now, a, command),
            Call::Cancel => self.cause_of_cancel(now, a, command),
        }
    }

    /// The command of a call that is accepted, or the first AddCause that refuses it.
    fn judge<'a>(
        &self,
        now: Moment,
        call: Call,
        a: AssocNo,
        value: &'a Value,
    ) -> Result<CommandRef<'a>, u8>
        requires typed { is_command self.now.config.kind call (command_of value.now) ≡ true }
        ensures went { went_of result ≡ went_at now call a.0 value.now self.now }
        ensures found { IfOk result (λ r. value.now ≡ value_said (said r)) }
        ensures short { IfOk result (λ r. length r.origin.ident.now ≤ 64) }
        ensures few { IfOk result (λ r. r.ctl_num < 256) }
        ensures checked { IfOk result (λ r. is_rest call (row_of r.rest.now) ≡ true) }
    {
        let Some(command) = read(self.kind, call, value) else {
            unreachable!()
        };
        match self.cause(now, call, a, &command) {
            Some(cause) => Err(cause),
            None => Ok(command),
        }
    }

    /// A read of SBO: whether it selects.
    pub fn select(&mut self, now: Moment, a: AssocNo) -> bool
        ensures answer { result ≡ can_select_at now self.old }
        ensures left { self.new ≡ (if can_select_at now self.old
            then selected_by now a.0 None self.old else self.old) }
    {
        if self.executed.is_running()
            || self.is_blocked
            || self.selected.is_standing(now, self.timeout)
        {
            return false;
        }
        self.selected.begin(now, a);
        true
    }

    /// SelectWithValue.
    pub fn select_with(&mut self, now: Moment, a: AssocNo, value: &Value) -> Result<Went, u8>
        requires typed { is_command self.old.config.kind select_call (command_of value.now) ≡ true }
        ensures went { went_of result ≡ went_at now select_call a.0 value.now self.old }
        ensures plain { IfOk result (λ w. w ≡ outcomes.Plain) }
        ensures selected { OnOk result (self.new ≡ selected_by now a.0
            (command_of value.now) self.old) }
        ensures kept { OnErr result (self.new ≡ self.old) }
    {
        let command = self.judge(now, Call::Select, a, value)?;
        self.selected.begin_with(now, a, &command);
        Ok(Went::Plain)
    }

    /// Cancel.
    pub fn cancel(&mut self, now: Moment, a: AssocNo, value: &Value) -> Result<Went, u8>
        requires typed { is_command self.old.config.kind cancel_call (command_of value.now) ≡ true }
        ensures went { went_of result ≡ went_at now cancel_call a.0 value.now self.old }
        ensures plain { IfOk result (λ w. w ≡ outcomes.Plain) }
        ensures cancelled { OnOk result (self.new ≡ cancelled_by a.0 self.old) }
        ensures kept { OnErr result (self.new ≡ self.old) }
    {
        self.judge(now, Call::Cancel, a, value)?;
        self.selected.end(a);
        Ok(Went::Plain)
    }

    /// The selection after an accepted Oper.
    fn use_selection(&mut self, now: Moment, a: AssocNo)
        ensures { self.new ≡ record self.old {
          selection = if self.old.config.sbo_class == OPERATE_ONCE
              then without_a a.0 self.old.selection
              else renewed a.0 now self.old.selection;
        } }
    {
        if self.class == ctl_models::OPERATE_ONCE {
            self.selected.end(a);
        } else {
            self.selected.renew(now, a);
        }
    }

    /// What runs after an accepted Oper.
    fn execute(&mut self, a: AssocNo, command: &CommandRef<'_>)
        requires number { IsNumber a.0 }
        requires short { length command.now.origin.ident.now ≤ 64 }
        requires few { command.now.ctl_num < 256 }
        requires checked { is_rest operate_call (row_of command.now.rest.now) ≡ true }
        ensures { self.new ≡ record self.old {
          execution = if is_enhanced_in self.old then Some
              (begun a.0 (value_said (said command.now))) else self.old.execution;
        } }
    {
        if self.is_enhanced() {
            self.executed.begin(a, command);
        }
    }

    /// What an accepted Oper does.
    fn effect(&self, command: &CommandRef<'_>) -> Went
        ensures { result ≡ effect_in command.now.test (is_enhanced_in self.now) }
    {
        if !command.test {
            Went::Act
        } else if self.is_enhanced() {
            Went::Tested
        } else {
            Went::Plain
        }
    }

    /// Operate.
    pub fn operate(&mut self, now: Moment, a: AssocNo, value: &Value) -> Result<Went, u8>
        requires number { IsNumber a.0 }
        requires typed { is_command self.old.config.kind operate_call
            (command_of value.now) ≡ true }
        ensures went { went_of result ≡ went_at now operate_call a.0 value.now self.old }
        ensures effect { IfOk result (λ w. w ≡ effect_at value.now self.old) }
        ensures operated { OnOk result (self.new ≡ operated_by now a.0 value.now self.old) }
        ensures kept { OnErr result (self.new ≡ self.old) }
    {
        let command = self.judge(now, Call::Operate, a, value)?;
        let effect = self.effect(&command);
        self.use_selection(now, a);
        self.execute(a, &command);
        Ok(effect)
    }

    /// The process ends what runs; returns for whom a termination is to be put.
    pub fn done(&mut self) -> Option<AssocNo>
        ensures due { option_map (λ a. a.0) result ≡ due_in self.old.execution }
        ensures number { IfSome result (λ a. IsNumber a.0) }
        ensures left { self.new ≡ done_to self.old }
    {
        self.executed.finish()
    }

    /// The termination was taken.
    pub fn taken(&mut self)
        ensures { self.new ≡ stopped self.old }
    {
        self.executed.stop();
    }

    /// The process blocks or unblocks it.
    pub fn block(&mut self, flag: bool)
        ensures { self.new ≡ blocked_as flag self.old }
    {
        self.is_blocked = flag;
    }

    /// An association is lost.
    pub fn lost(&mut self, gone: AssocNo)
        ensures { self.new ≡ lost_by gone.0 self.old }
    {
        self.selected.end(gone);
        self.executed.lose(gone);
    }

    /// `LD/LN$CO$DO`, lent.
    pub fn reference(&self) -> &[u8]
        ensures { result.now ≡ self.now.config.reference }
    {
        self.reference.as_slice()
    }

    /// The value is of the type of the call's node, length and range included.
    pub fn is_typed(&self, call: Call, value: &Value) -> bool
        ensures { result ≡ is_command self.now.config.kind call (command_of value.now) }
    {
        read(self.kind, call, value).is_some()
    }

    /// The ctlVal of an Oper.
    pub fn ctl_val(&self, value: &Value) -> Value
        requires typed { is_command self.now.config.kind operate_call
            (command_of value.now) ≡ true }
        ensures { option_map (λ m. value_of m.value) (command_of value.now) ≡ Some result }
    {
        match read(self.kind, Call::Operate, value) {
            Some(command) => command.value.value(),
            None => unreachable!(),
        }
    }

    /// The LastApplError of a refused call with this value.
    pub fn error(
        &self,
        alloc: Global,
        call: Call,
        value: &Value,
        cause: u8,
    ) -> Result<ApplError, AllocError>
        requires typed { is_command self.now.config.kind call (command_of value.now) ≡ true }
        ensures { IfOk result (λ e. e ≡ error_at self.now.config.reference call value.now cause) }
    {
        match read(self.kind, call, value) {
            Some(command) => error_of(alloc, self.reference.as_slice(), call, &command, cause),
            None => unreachable!(),
        }
    }

    /// A command runs.
    pub fn is_running(&self) -> bool
        ensures { result ≡ is_some self.now.execution }
    {
        self.executed.is_running()
    }

    /// The value of the Oper that runs.
    pub fn oper(&self, alloc: Global) -> Result<Value, AllocError>
        requires { is_some self.now.execution ≡ true }
        ensures { IfOk result (λ v. Some v ≡ option_map (λ e. e.oper) self.now.execution) }
    {
        self.executed.oper(alloc)
    }

    /// The termination of what runs, positive or negative.
    pub fn termination(
        &self,
        alloc: Global,
        number: CtlNo,
        good: bool,
    ) -> Result<Termination, AllocError>
        requires { is_some self.now.execution ≡ true }
        ensures { IfOk result (λ t. Some t ≡ terminations number good self.now) }
    {
        let error = if good {
            None
        } else {
            Some(
                self.executed.error(
                    alloc,
                    self.reference.as_slice(),
                    add_causes::TIME_LIMIT_OVER,
                )?,
            )
        };
        Ok(Termination {
            control: number,
            oper: self.executed.oper(alloc)?,
            error,
        })
    }
}
