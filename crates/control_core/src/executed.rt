//! What a control executes.

use crate::command::CommandRef;
use crate::kept_command::KeptCommand;
use bay_model::ApplError;
use std::alloc::{AllocError, Global};
use std::marker::Model;
use sv_base::{AssocNo, Value};

/// How far an execution has come.
#[derive(Clone, Copy, Debug, PartialEq, Eq)]
pub enum Stage {
    /// Its termination wasn't put yet.
    Underway,
    /// Its termination was put.
    Ended,
    /// Its association was lost before.
    Orphaned,
}

/// Whose command runs, and how far it has come.
#[derive(Clone, Copy, Debug)]
struct Running {
    by: AssocNo,
    stage: Stage,
}

/// What a control with enhanced security executes, if anything, in memory that was allocated before. Contracts see it.
#[derive(Drop)]
pub struct Executed {
    running: Option<Running>,
    kept: KeptCommand,
}

impl Model for Executed {
    ghost use Rattle.std.specs.Prelude.{Option, IfSome};
    ghost use Rattle.control_core.specs.Opening.{IsNumber};
    ghost use Rattle.std.specs.Option.{option_map};
    ghost use Rattle.bay_model.specs.Controls.{Execution};
    ghost use Rattle.control_core.specs.Commands.{value_said};
    ghost use Rattle.control_core.specs.Stages.{phase_in};

    ghost Value = { Option Execution };

    ghost use Rattle.std.specs.Coded.{codes};
    ghost use Rattle.sv_base.specs.Tree.{row_code};
    ghost use Rattle.control_core.specs.Coding.{phase_code};

    ghost coded = { Prim.hlevel (codes, row_code, phase_code) };

    ghost view = { λ s. option_map (λ r. record {
      by = r.by.0;
      oper = value_said s.kept;
      phase = phase_in r.stage;
    }) s.running };

    ghost invariant = { λ s. IfSome s.running (λ r. IsNumber r.by.0) };
}

impl Executed {
    ghost use Rattle.std.specs.Prelude.{◌≡◌, ◌≤◌, ◌<◌, true, is_some, Some, None, length, IfOk};
    ghost use Rattle.std.specs.Prelude.{IfSome};
    ghost use Rattle.std.specs.Option.{option_map};
    ghost use Rattle.sv_base.specs.Seen.{row_of};
    ghost use Rattle.bay_model.specs.Model.{operate};
    ghost use Rattle.bay_model.specs.Commands.{is_rest};
    ghost use Rattle.control_core.specs.Commands.{said, value_said};
    ghost use Rattle.control_core.specs.Opening.{IsNumber};
    ghost use Rattle.control_core.specs.Controls.{begun, finished, due, left, blamed};

    /// Nothing runs.
    pub fn new(alloc: Global) -> Result<Executed, AllocError>
        ensures { IfOk result (λ s. s ≡ None) }
    {
        Ok(Executed {
            running: None,
            kept: KeptCommand::new(alloc)?,
        })
    }

    /// A command runs.
    pub fn is_running(&self) -> bool
        ensures { result ≡ is_some self.now }
    {
        self.running.is_some()
    }

    /// A command begins to run; the termination of a test is put at once.
    pub fn begin(&mut self, a: AssocNo, command: &CommandRef<'_>)
        requires number { IsNumber a.0 }
        requires short { length command.now.origin.ident.now ≤ 64 }
        requires few { command.now.ctl_num < 256 }
        requires checked { is_rest operate (row_of command.now.rest.now) ≡ true }
        ensures { self.new ≡ Some (begun a.0 (value_said (said command.now))) }
    {
        self.kept.set(command);
        self.running = Some(Running {
            by: a,
            stage: if command.test {
                Stage::Ended
            } else {
                Stage::Underway
            },
        });
    }

    /// The process ends what runs; returns for whom a termination is to be put.
    pub fn finish(&mut self) -> Option<AssocNo>
        ensures due { option_map (λ a. a.0) result ≡ due self.old }
        ensures number { IfSome result (λ a. IsNumber a.0) }
        ensures left { self.new ≡ finished self.old }
    {
        let running = self.running?;
        match running.stage {
            Stage::Underway => {
                self.running = Some(Running {
                    by: running.by,
                    stage: Stage::Ended,
                });
                Some(running.by)
            }
            Stage::Ended => None,
            Stage::Orphaned => {
                self.running = None;
                None
            }
        }
    }

    /// An association is lost.
    pub fn lose(&mut self, a: AssocNo)
        ensures { self.new ≡ left a.0 self.old }
    {
        let Some(running) = self.running else {
            return;
        };
        if running.by.0 != a.0 {
            return;
        }
        match running.stage {
            Stage::Underway => {
                self.running = Some(Running {
                    by: running.by,
                    stage: Stage::Orphaned,
                })
            }
            Stage::Ended => self.running = None,
            Stage::Orphaned => (),
        }
    }

    /// Nothing runs any longer.
    pub fn stop(&mut self)
        ensures { self.new ≡ None }
    {
        self.running = None;
    }

    /// The value of the command that runs.
    pub fn oper(&self, alloc: Global) -> Result<Value, AllocError>
        requires { is_some self.now ≡ true }
        ensures { IfOk result (λ v. Some v ≡ option_map (λ e. e.oper) self.now) }
    {
        self.kept.value(alloc)
    }

    /// The LastApplError of the command that runs, with the reference of its control.
    pub fn error(&self, alloc: Global, reference: &[u8], cause: u8) -> Result<ApplError, AllocError>
        requires { is_some self.now ≡ true }
        ensures { IfOk result (λ e. Some e ≡ blamed reference.now cause self.now) }
    {
        self.kept.error(alloc, reference, cause)
    }
}
