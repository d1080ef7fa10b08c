//! What the seats of the lock know, and what the lock is told when it is made.

use bay_model::Step;
use object_model::Model;
use std::collections::LinkedList;
use sv_base::{ActorNo, Config, Moment};

/// Where a seat stands in its turn.
pub enum Phase {
    /// It makes none.
    Idle,
    /// It drew this ticket, and waits.
    Drawn(u64),
    /// It is its turn: it has the machine.
    Busy(u64),
    /// It has the machine, whose last step it added to the history.
    Added(u64),
}

/// A step in a history. No value of it is made. Contracts see the turn of the definitions.
pub struct Entry {
    moment: Moment,
    actor: ActorNo,
    step: Step,
}

impl std::marker::Model for Entry {
    ghost use Rattle.bay_model.specs.Answers.{Turn};
    ghost use Rattle.std.specs.Coded.{codes};
    ghost use Rattle.sv_base.specs.Tree.{row_code};
    ghost use Rattle.sv_base.specs.Types.{fields_code};

    ghost Value = { Turn };

    ghost coded = { Prim.hlevel (codes, row_code, fields_code) };

    ghost view = { λ e. record { moment = e.moment; actor = e.actor.0; step = e.step } };
}

/// What a seat knows. No value of it is made.
pub struct View {
    /// The configuration, which a spent seat does not know.
    pub config: Option<Config>,
    /// The ranges of actor numbers, each a lowest number and a length. The first is its own to cut, the others were joined.
    pub ranges: LinkedList<(u64, u64)>,
    /// The turns left.
    pub left: u64,
    /// Where it stands in its turn.
    pub phase: Phase,
    /// The history as far as the seat has seen it, the newest step first.
    pub seen: LinkedList<Entry>,
    /// The ranges of a seat that was joined, until the two are compared.
    pub aside: LinkedList<(u64, u64)>,
    /// What that seat had seen.
    pub told: LinkedList<Entry>,
}

/// What the lock is told when it is made.
#[derive(Drop)]
pub struct About {
    /// How many actors there are.
    pub actors: u64,
    /// The model of the machine.
    pub model: Model,
}
