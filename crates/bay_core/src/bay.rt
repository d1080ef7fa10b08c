//! A bay.

use bay_model::{Answer, Change, Output, Report};
use bay_queues::Queues;
use bay_rooms::Fixed;
use bay_values::Values;
use block_reports::Rooms;
use block_watch::{Dues, Watch};
use data_sets::SetBook;
use object_model::Model;
use report_block::{EventRoom, ReportBlock};
use setting_groups::Groups;
use sv_base::{AssocNo, Moment};

/// A bay: its configuration and all that its steps came to. Contracts see the state that `specs/` defines.
#[derive(Drop)]
pub struct Bay {
    pub(crate) model: Model,
    pub(crate) steps: u64,
    pub(crate) latest: Moment,
    pub(crate) values: Values,
    /// What the setting groups hold; the values of SG attributes are those of the active ones.
    pub(crate) groups: Groups,
    /// The data sets that are there: a report block holds the number of its own.
    pub(crate) sets: SetBook,
    pub(crate) parts: Vec<ReportBlock>,
    /// Before these moments, block by block, none has anything due.
    pub(crate) dues: Dues,
    /// The associations and what waits for them, and the controls.
    pub(crate) associations: Queues,
    /// The members of all data sets by their attributes, with the notes of the step that is being made.
    pub(crate) watch: Watch,
    /// The changes of the step that is being made; of no account between steps, as are the octets of an event and of an entry.
    pub(crate) changes: Vec<Change>,
    pub(crate) events: EventRoom,
    pub(crate) octets: Fixed,
    /// A report that is no longer needed, in whose memory the next one is written; of no account either, as is the memory that is kept
    /// for the report of a moment at which something is due.
    pub(crate) spare: Option<Report>,
    pub(crate) rooms: Option<Rooms>,
}

/// The report that an answer is.
fn report_in(answer: Answer) -> Option<Report> {
    match answer {
        Answer::Taken(Output::Report(report)) => Some(report),
        _ => None,
    }
}

impl std::marker::Model for Bay {
    ghost use Rattle.std.specs.Prelude.{vec_capacity};
    ghost use Rattle.std.specs.Coded.{codes};
    ghost use Rattle.sv_base.specs.Tree.{row_code};
    ghost use Rattle.sv_base.specs.Types.{fields_code};
    ghost use Rattle.control_core.specs.Coding.{seen_code, phase_code, kind_code};
    ghost use Rattle.bay_core.specs.State.{State};
    ghost use Rattle.bay_core.specs.Whole.{IsWhole};

    ghost Value = { State };

    ghost coded = { Prim.hlevel (codes, row_code, fields_code, seen_code, phase_code, kind_code) };

    ghost view = { λ b. record {
      config = b.model;
      steps = b.steps;
      latest = b.latest;
      stored = b.values;
      book = b.sets;
      parts = b.parts.items;
      rows = b.associations.rows;
      groups = b.groups;
      controls = b.associations.table;
    } };

    ghost invariant = { λ b. IsWhole b.model b.values b.groups b.sets b.parts.items b.watch b.octets
        (vec_capacity b.changes) b.latest b.dues b.events b.associations.table };
}

impl Bay {
    ghost use Rattle.std.specs.Prelude.{◌≡◌, is_some};
    ghost use Rattle.sv_base.specs.declared.config.Config.{Config};
    ghost use Rattle.bay_model.specs.Answers.{History, points};
    ghost use Rattle.bay_model.specs.Associations.{ends};
    ghost use Rattle.bay_model.specs.Named.{configured_model};
    ghost use Rattle.assoc_table.specs.Tables.{IsNumber, row_of};
    ghost use Rattle.bay_config.specs.Servable.{IsServable};
    ghost use Rattle.bay_core.specs.Standing.{StandsFor};

    /// How many steps were made.
    pub fn steps(&self) -> u64
        ensures { result ≡ self.now.steps }
    {
        self.steps
    }

    /// The model, which can be served.
    pub fn model(&self) -> &Model
        ensures model { result.now ≡ self.now.config }
        ensures served { IsServable self.now.config }
    {
        &self.model
    }

    /// An association is open.
    pub fn is_open(&self, a: AssocNo) -> bool
        requires { IsNumber a.0 }
        ensures row { result ≡ is_some (row_of self.now.rows a.0).ends }
        // So it is in the definitions, after every history that the bay stands for.
        ensures defined { (c : Config) (h : History) → StandsFor self.now c h
            → result ≡ is_some (ends a.0 (points (configured_model c) h)) }
    {
        self.associations.is_open(a)
    }

    /// Takes back an answer that is no longer needed: the next report is written in its memory, as far as that goes. Nothing
    /// else depends on it.
    pub fn reuse(&mut self, answer: Answer)
        ensures { self.new ≡ self.old }
    {
        if let Some(report) = report_in(answer) {
            self.spare = Some(report);
        }
    }
}
