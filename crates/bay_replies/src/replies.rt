//! The reply to a request that reads and writes no variable.

ghost use Rattle.std.specs.Prelude.{◌≡◌, IfOk, if◌then◌else◌};
ghost use Rattle.bay_model.specs.declared.reply.Asked.TheVariants as asked;
ghost use Rattle.bay_model.specs.Services.{type_reply};

use crate::copy_targets;
use bay_model::{Asked, Reply, Service, Target, Targets, service_errors};
use data_sets::SetBook;
use object_model::Model;
use report_block::ReportBlock;
use setting_groups::Groups;
use std::alloc::{AllocError, Global};
use sv_base::{Moment, rejections};
use value_store::Store;

/// What a bay lends to a reply: its model, its values, its setting groups, its report blocks and its data sets; its newest moment so
/// far, and that of the step that is to be made.
#[derive(Drop)]
pub struct Replies<'a> {
    pub model: &'a Model,
    pub store: &'a Store,
    pub groups: &'a Groups,
    pub blocks: &'a [ReportBlock],
    pub book: &'a SetBook,
    pub was: Moment,
    pub now: Moment,
}

/// The type of a variable (ISO 9506-2, GetVariableAccessAttributes).
fn type_of(target: &Target) -> Reply
    ensures { result ≡ type_reply target.now }
{
    match target {
        Target::Node(node, _) => Reply::TypeOfNode(*node),
        Target::Missing(_) | Target::Alternate(_) => Reply::Error {
            class: service_errors::ACCESS,
            code: service_errors::OBJECT_NON_EXISTENT,
        },
    }
}

/// The specification of variables, where it is to be written back.
pub fn asked_variables(alloc: Global, spec: bool, targets: &Targets) -> Result<Asked, AllocError>
    ensures { IfOk result (λ a. a ≡ (if spec then asked.Vars targets.now else asked.No)) }
{
    if spec {
        Ok(Asked::Vars(copy_targets(alloc, targets.as_slice())?))
    } else {
        Ok(Asked::No)
    }
}

impl<'a> Replies<'a> {
    ghost use Rattle.std.specs.Prelude.{◌≡◌, IfOk};
    ghost use Rattle.bay_replies.specs.Asking.{IsReading, IsFitting};
    ghost use Rattle.bay_replies.specs.Standing.{IsServed, IsReplyTo};
    ghost use Rattle.bay_replies.specs.Replied.{replied};

    /// The reply by its service.
    fn answer(&self, alloc: Global, size: u32, service: &Service) -> Result<Reply, AllocError>
        requires served { IsServed self.now.model.now self.now.store.now self.now.groups.now
            self.now.blocks.now self.now.book.now }
        requires fits { IsFitting self.now.model.now service.now }
        ensures { IfOk result (λ r. r ≡ replied self.entry.now size service.now) }
    {
        match service {
            Service::Status => Ok(Reply::Status),
            Service::Identify => Ok(Reply::Identify),
            Service::Conclude => Ok(Reply::Conclude),
            Service::Names {
                class,
                scope,
                after,
            } => self.names_reply(alloc, size, *class, scope, after.as_ref()),
            Service::TypeOfNode(target) => Ok(type_of(target)),
            Service::ReadSet { domain, item, spec } => {
                self.read_set(alloc, size, domain, item, *spec)
            }
            Service::SetOf { domain, item } => self.set_reply(alloc, domain, item),
            Service::Reject(number) => Ok(Reply::Reject(*number)),
            Service::Read { .. }
            | Service::WriteVars(_)
            | Service::WriteSet { .. }
            | Service::Define { .. }
            | Service::Delete { .. } => Ok(Reply::Reject(rejections::UNKNOWN_PDU)),
        }
    }

    /// The reply to a request that reads and writes no variable (ISO 9506-2: Status, Identify, Conclude, GetNameList,
    /// GetVariableAccessAttributes, Read of a named variable list, GetNamedVariableListAttributes, and a Reject), for an association with
    /// PDUs of this size in octets. Where values and codes alone are longer than that it is the error of class service with the code
    /// pdu-size; a data set or a domain that isn't there gives that of class access with the code object-non-existent.
    pub fn reply(&self, alloc: Global, size: u32, service: &Service) -> Result<Reply, AllocError>
        requires served { IsServed self.now.model.now self.now.store.now self.now.groups.now
            self.now.blocks.now self.now.book.now }
        requires fits { IsFitting self.now.model.now service.now }
        requires reading { IsReading service.now }
        ensures { IfOk result (λ r. IsReplyTo self.entry.now.model.now self.entry.now.store.now
            self.entry.now.groups.now
            self.entry.now.blocks.now self.entry.now.book.now self.entry.now.was self.entry.now.now
            size service.now r) }
    {
        // no moment lies above the last that a step can have
        let _last = self.was.ms();
        let reply = self.answer(alloc, size, service)?;
        Ok(reply)
    }
}
