//! Reads of variables (ISO 9506-2, Read; IEC 61850-7-2, Select): the values are made before a step, and the reads of SBO select in
//! their turn.

ghost use Rattle.std.specs.Prelude.{◌≡◌, ◌<◌, slice_set, map};
ghost use Rattle.std.specs.List.{All};
ghost use Rattle.std.specs.Option.{option_map};
ghost use Rattle.sv_base.specs.declared.numbers.CtlNo.{CtlNo as Control};
ghost use Rattle.bay_model.specs.Configured.{control_defined};
ghost use Rattle.setting_groups.specs.Opened.{IsGrouped};
ghost use Rattle.bay_queues.specs.Queued.{configs};
ghost use Rattle.bay_replies.specs.Reading.{selecting_in, IsTarget};
ghost use Rattle.bay_core.specs.Turned.{after_turn, after_turns, empty_text, in_turns, reply_of};
ghost use Rattle.bay_core.specs.Turned.{with_turn};

use crate::bay::Bay;
use bay_model::{Asked, Reply, Results, Target, Targets, service_errors};
use bay_queues::Queues;
use bay_replies::{Read, are_too_long, asked_variables};
use object_model::{Model, What};
use std::alloc::{AllocError, Global};
use sv_base::{AccessResult, AssocNo, CtlNo, Moment, Octs, Value};

/// The reply to Read, where the results are these, or were cut since they are longer than a PDU of this size: the error of class
/// service with the code pdu-size, where they are longer.
fn read_reply(size: u32, asked: Asked, read: Read) -> Reply
    requires { size < 4294967295 }
    ensures { result ≡ reply_of size asked read.is_cut read.results.items }
{
    if read.is_cut || are_too_long(size, read.results.as_slice()) {
        return Reply::Error {
            class: service_errors::SERVICE,
            code: service_errors::PDU_SIZE,
        };
    }
    Reply::Read {
        asked,
        results: Results::from_vec(read.results),
    }
}

/// A read of SBO that doesn't select gives the empty text.
fn refuse(alloc: Global, results: &mut Vec<AccessResult>, place: usize)
    ensures { results.new.items ≡ slice_set results.old.items place empty_text }
{
    if place < results.len() {
        results[place] = Ok(Value::Text(Octs::from_vec(Vec::new(alloc))));
    }
}

/// The control whose SBO a variable is.
fn selected_by(model: &Model, target: &Target) -> Option<CtlNo>
    requires { IsTarget model.now target.now }
    ensures { option_map (λ (k : Control). k.0) result ≡ selecting_in model.now target.now }
{
    match target {
        Target::Node(node, _) => match model.role_of(*node) {
            What::Selecting(control) => Some(CtlNo(control)),
            _ => None,
        },
        Target::Missing(_) | Target::Alternate(_) => None,
    }
}

/// An association reads a variable in its turn: one that is SBO selects, or gives the empty text.
fn read_in_turn(
    alloc: Global,
    model: &Model,
    queues: &mut Queues,
    a: AssocNo,
    target: &Target,
    results: &mut Vec<AccessResult>,
    place: usize,
)
    requires there { IsTarget model.now target.now }
    requires grouped { IsGrouped model.now }
    requires controls { configs queues.old.table ≡ map control_defined model.now.controls }
    ensures controls { queues.new ≡ record queues.old {
      table = after_turn a.0
          (selecting_in model.now target.now) queues.old.table;
    } }
    ensures result { results.new.items ≡ with_turn place
        (selecting_in model.now target.now) queues.old.table results.old.items }
{
    let Some(control) = selected_by(model, target) else {
        return;
    };
    if !queues.select(control, a) {
        refuse(alloc, results, place);
    }
}

/// An association reads variables in their turn; results after a cut aren't there.
fn read_all(
    alloc: Global,
    model: &Model,
    queues: &mut Queues,
    a: AssocNo,
    targets: &[Target],
    results: &mut Vec<AccessResult>,
)
    requires there { All (IsTarget model.now) targets.now }
    requires grouped { IsGrouped model.now }
    requires controls { configs queues.old.table ≡ map control_defined model.now.controls }
    ensures controls { queues.new
        ≡ record queues.old { table = after_turns a.0 model.now targets.now queues.old.table } }
    ensures results { results.new.items
        ≡ in_turns a.0 model.now targets.now queues.old.table results.old.items }
{
    for place in 0..targets.len() {
        read_in_turn(alloc, model, queues, a, &targets[place], results, place);
    }
}

impl Bay {
    ghost use Rattle.std.specs.Prelude.{◌≡◌, IfOk, OnOk, OnErr};
    ghost use Rattle.bay_model.specs.declared.request.Service.TheVariants as services;
    ghost use Rattle.assoc_table.specs.Tables.{IsNumber};
    ghost use Rattle.bay_replies.specs.Asking.{IsFitting};
    ghost use Rattle.bay_core.specs.Asked.{IsAnswered, IsKept};

    /// The variables of a request are read in their turn, where the values were made before.
    fn turn(&mut self, alloc: Global, a: AssocNo, targets: &Targets, read: &mut Read)
        requires { All (IsTarget self.old.config) targets.now }
        ensures controls { self.new
            ≡ record self.old {
              controls = after_turns a.0 self.old.config targets.now
                  self.old.controls;
            } }
        ensures results { read.new.results.items
            ≡ in_turns a.0 self.old.config targets.now self.old.controls read.old.results.items }
        ensures cut { read.new.is_cut ≡ read.old.is_cut }
    {
        read_all(
            alloc,
            &self.model,
            &mut self.associations,
            a,
            targets.as_slice(),
            &mut read.results,
        );
    }

    /// Answers a read of variables: the values are made, then time passes, and the reads of SBO select in their turn.
    pub(crate) fn answer_variables(
        &mut self,
        alloc: Global,
        moment: Moment,
        a: AssocNo,
        targets: &Targets,
        spec: bool,
    ) -> Result<Reply, AllocError>
        requires number { IsNumber a.0 }
        requires fits { IsFitting self.old.config (services.Read targets.now spec) }
        ensures answered { IfOk result (λ r. IsAnswered self.old self.new moment a.0
            (services.Read targets.now spec) r) }
        ensures kept { OnOk result (IsKept self.old self.new) }
        ensures refused { OnErr result (self.new ≡ self.old) }
    {
        let size = self.associations.size(a).unwrap_or(0);
        let asked = asked_variables(alloc, spec, targets)?;
        let mut read = self
            .replies(moment)
            .read_targets(alloc, size, targets.as_slice())?;
        self.arrive(moment);
        self.turn(alloc, a, targets, &mut read);
        Ok(read_reply(size, asked, read))
    }
}
