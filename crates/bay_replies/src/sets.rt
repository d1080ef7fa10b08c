//! Data sets (ISO 9506-2, GetNamedVariableListAttributes and Read of a named variable list).

ghost use Rattle.std.specs.Prelude.{◌≡◌, ℕ, List, Result};
ghost use Rattle.sv_base.specs.declared.value.Value.{Value};
ghost use Rattle.bay_model.specs.Services.{read_reply as read_reply_of};
ghost use Rattle.bay_replies.specs.Held.{held_within};
ghost use Rattle.bay_replies.specs.Replied.{asked_set as asked_of};

use crate::replies::Replies;
use crate::set_name;
use bay_model::{Asked, Nodes, Reply, Results, SetName, service_errors};
use data_sets::DeleteFault;
use std::alloc::{AllocError, Global};
use sv_base::Octs;

/// The specification of a set, where it is to be written back.
fn asked_set(spec: bool, name: SetName) -> Asked
    ensures { result ≡ asked_of spec name }
{
    if spec { Asked::Set(name) } else { Asked::No }
}

/// The reply to Read: the results with the specification, and the error of class service with the code pdu-size, where values and
/// codes are longer than a PDU.
pub(crate) fn read_reply(asked: Asked, results: Option<Results>) -> Reply
    ensures { (size : ℕ) (all : List (Result Value ℕ)) → results ≡ held_within size all
        → result ≡ read_reply_of size asked all }
{
    match results {
        Some(results) => Reply::Read { asked, results },
        None => Reply::Error {
            class: service_errors::SERVICE,
            code: service_errors::PDU_SIZE,
        },
    }
}

impl<'a> Replies<'a> {
    ghost use Rattle.std.specs.Prelude.{◌≡◌, ◌<◌, ℕ, not, length, IfOk};
    ghost use Rattle.bay_model.specs.Named.{nodes as nodes_of};
    ghost use Rattle.bay_model.specs.Services.{set_name as set_named};
    ghost use Rattle.data_sets.specs.Books.{deletion, number_named, set_at};
    ghost use Rattle.set_view.specs.Shapes.{AreThere};
    ghost use Rattle.bay_replies.specs.Replied.{is_fixed, set_by, read_set_by};

    /// The set is none of the configuration's.
    fn is_deletable(&self, name: &SetName) -> bool
        ensures { result ≡ not (is_fixed (deletion self.entry.now.book.now name.now)) }
    {
        !matches!(self.book.deletion(name), Err(DeleteFault::NotDeletable))
    }

    /// The reply to GetNamedVariableListAttributes.
    pub(crate) fn set_reply(
        &self,
        alloc: Global,
        domain: &Octs,
        item: &Octs,
    ) -> Result<Reply, AllocError>
        ensures { IfOk result (λ r. r ≡ set_by self.entry.now (set_named domain.now item.now)
            (number_named (set_named domain.now item.now) self.entry.now.book.now)) }
    {
        let name = set_name(alloc, domain, item)?;
        match self.book.number_named(&name) {
            Some(number) => Ok(Reply::SetOf {
                deletable: self.is_deletable(&name),
                members: Nodes::from_vec(Vec::from_slice(alloc, self.book.nodes(number))?),
            }),
            None => Ok(Reply::Error {
                class: service_errors::ACCESS,
                code: service_errors::OBJECT_NON_EXISTENT,
            }),
        }
    }

    /// The reply to Read of a named variable list.
    pub(crate) fn read_set(
        &self,
        alloc: Global,
        size: u32,
        domain: &Octs,
        item: &Octs,
        spec: bool,
    ) -> Result<Reply, AllocError>
        requires { (k : ℕ) → k < length self.now.book.now.sets
            → AreThere (length (nodes_of self.now.model.now)) (set_at self.now.book.now k).nodes }
        ensures { IfOk result (λ r. r ≡ read_set_by self.entry.now size
            (set_named domain.now item.now) spec
            (number_named (set_named domain.now item.now) self.entry.now.book.now)) }
    {
        let name = set_name(alloc, domain, item)?;
        match self.book.number_named(&name) {
            Some(number) => {
                let results = self.read_nodes(alloc, size, self.book.nodes(number))?;
                Ok(read_reply(asked_set(spec, name), results))
            }
            None => Ok(Reply::Error {
                class: service_errors::ACCESS,
                code: service_errors::OBJECT_NON_EXISTENT,
            }),
        }
    }
}
