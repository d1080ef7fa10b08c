//! Who has selected a control.

use crate::command::CommandRef;
use crate::kept_command::KeptCommand;
use std::alloc::{AllocError, Global};
use std::marker::Model;
use sv_base::{AssocNo, Moment};

/// Who has selected a control, from when on its time counts, and whether with a command.
#[derive(Clone, Copy, Debug)]
struct Held {
    by: AssocNo,
    since: Moment,
    is_told: bool,
}

/// The selection of a control, if there is one, in memory that was allocated before. Contracts see it.
#[derive(Drop)]
pub struct Selected {
    held: Option<Held>,
    kept: KeptCommand,
}

impl Model for Selected {
    ghost use Rattle.std.specs.Prelude.{Option, Some, None, if◌then◌else◌};
    ghost use Rattle.std.specs.Option.{option_map};
    ghost use Rattle.bay_model.specs.Selections.{Selection};
    ghost use Rattle.control_core.specs.Commands.{command_said};

    ghost Value = { Option Selection };

    ghost use Rattle.std.specs.Coded.{codes};
    ghost use Rattle.sv_base.specs.Tree.{row_code};
    ghost use Rattle.control_core.specs.Coding.{seen_code};

    ghost coded = { Prim.hlevel (codes, row_code, seen_code) };

    ghost view = { λ s. option_map (λ h. record {
      by = h.by.0;
      since = h.since;
      command = if h.is_told then Some (command_said s.kept) else None;
    }) s.held };
}

impl Selected {
    ghost use Rattle.std.specs.Prelude.{◌≡◌, ◌≤◌, ◌<◌, true, is_some, Some, None, length, IfOk};
    ghost use Rattle.sv_base.specs.Seen.{row_of};
    ghost use Rattle.bay_model.specs.Model.{operate};
    ghost use Rattle.bay_model.specs.Commands.{is_rest};
    ghost use Rattle.bay_model.specs.Selections.{without_a};
    ghost use Rattle.bay_model.specs.Calls.{is_by as is_by_in, is_by_another as is_by_another_in};
    ghost use Rattle.bay_model.specs.Calls.{is_other_command};
    ghost use Rattle.control_core.specs.Commands.{said, command_said};
    ghost use Rattle.control_core.specs.Controls.{lasting, renewed};

    /// Selected by nobody.
    pub fn new(alloc: Global) -> Result<Selected, AllocError>
        ensures { IfOk result (λ s. s ≡ None) }
    {
        Ok(Selected {
            held: None,
            kept: KeptCommand::new(alloc)?,
        })
    }

    /// An association selects, with no command.
    pub fn begin(&mut self, now: Moment, a: AssocNo)
        ensures { self.new ≡ Some (record { by = a.0; since = now; command = None }) }
    {
        self.held = Some(Held {
            by: a,
            since: now,
            is_told: false,
        });
    }

    /// An association selects with a command.
    pub fn begin_with(&mut self, now: Moment, a: AssocNo, command: &CommandRef<'_>)
        requires short { length command.now.origin.ident.now ≤ 64 }
        requires few { command.now.ctl_num < 256 }
        requires checked { is_rest operate (row_of command.now.rest.now) ≡ true }
        ensures { self.new ≡ Some (record {
          by = a.0;
          since = now;
          command = Some (command_said (said command.now));
        }) }
    {
        self.kept.set(command);
        self.held = Some(Held {
            by: a,
            since: now,
            is_told: true,
        });
    }

    /// Ends an association's selection.
    pub fn end(&mut self, a: AssocNo)
        ensures { self.new ≡ without_a a.0 self.old }
    {
        if let Some(held) = self.held
            && held.by.0 == a.0
        {
            self.held = None;
        }
    }

    /// Starts the time of an association's selection again.
    pub fn renew(&mut self, now: Moment, a: AssocNo)
        ensures { self.new ≡ renewed a.0 now self.old }
    {
        if let Some(held) = self.held
            && held.by.0 == a.0
        {
            self.held = Some(Held {
                by: held.by,
                since: now,
                is_told: held.is_told,
            });
        }
    }

    /// A selection stands.
    pub fn is_standing(&self, now: Moment, timeout: u32) -> bool
        ensures { result ≡ is_some (lasting now timeout self.now) }
    {
        match self.held {
            Some(held) => now.ms() < held.since.ms() + u64::from(timeout),
            None => false,
        }
    }

    /// A selection of this association stands.
    pub fn is_by(&self, now: Moment, timeout: u32, a: AssocNo) -> bool
        ensures { result ≡ is_by_in a.0 (lasting now timeout self.now) }
    {
        match self.held {
            Some(held) => { now.ms() < held.since.ms() + u64::from(timeout) && held.by.0 == a.0 }
            None => false,
        }
    }

    /// A selection of another association stands.
    pub fn is_by_another(&self, now: Moment, timeout: u32, a: AssocNo) -> bool
        ensures { result ≡ is_by_another_in a.0 (lasting now timeout self.now) }
    {
        match self.held {
            Some(held) => { now.ms() < held.since.ms() + u64::from(timeout) && held.by.0 != a.0 }
            None => false,
        }
    }

    /// A selection with another command stands.
    pub fn is_other(&self, now: Moment, timeout: u32, command: &CommandRef<'_>) -> bool
        ensures { result ≡ is_other_command (Some (command_said (said command.now)))
            (lasting now timeout self.now) }
    {
        match self.held {
            Some(held) => {
                now.ms() < held.since.ms() + u64::from(timeout)
                    && held.is_told
                    && self.kept.differs(command)
            }
            None => false,
        }
    }
}
