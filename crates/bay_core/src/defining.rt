//! Data sets that clients define (ISO 9506-2, DefineNamedVariableList; IEC 61850-7-2, CreateDataSet).

ghost use Rattle.std.specs.Prelude.{◌≡◌};
ghost use Rattle.bay_model.specs.declared.reply.Reply.TheVariants as replies;
ghost use Rattle.data_sets.specs.Turns.{error_of};

use crate::bay::Bay;
use bay_model::{Reply, Targets, service_errors};
use bay_replies::set_name;
use data_sets::{DefineFault, Definition};
use object_model::is_set_name;
use std::alloc::{AllocError, Global};
use sv_base::{AssocNo, Moment, Octs};

/// The reply to a definition that is refused (ISO 9506-2, ServiceError): object-exists, object-non-existent, and resource with the
/// code other.
fn refusal(fault: DefineFault) -> Reply
    ensures { result ≡ replies.Error (error_of fault).0 (error_of fault).1 }
{
    match fault {
        DefineFault::Exists => Reply::Error {
            class: service_errors::DEFINITION,
            code: service_errors::OBJECT_EXISTS,
        },
        DefineFault::NoSuchMember => Reply::Error {
            class: service_errors::ACCESS,
            code: service_errors::OBJECT_NON_EXISTENT,
        },
        DefineFault::Full => Reply::Error {
            class: service_errors::RESOURCE,
            code: service_errors::RESOURCE_OTHER,
        },
    }
}

impl Bay {
    ghost use Rattle.std.specs.Prelude.{◌≡◌, IfOk, OnOk, OnErr};
    ghost use Rattle.bay_model.specs.declared.request.Service.TheVariants as services;
    ghost use Rattle.assoc_table.specs.Tables.{IsNumber};
    ghost use Rattle.data_sets.specs.Books.{with_set};
    ghost use Rattle.bay_replies.specs.Asking.{IsFitting};
    ghost use Rattle.bay_core.specs.Asked.{IsKept, IsReplied};
    ghost use Rattle.bay_core.specs.Deleted.{IsNewSet};

    /// Puts a data set into the book, with capacity for its members in the index of every block, so that a write of DatSet needs none.
    fn define(&mut self, definition: Definition) -> Result<(), AllocError>
        requires { IsNewSet self.old.config self.old.book definition }
        ensures defined { OnOk result
            (self.new ≡ record self.old { book = with_set definition self.old.book }) }
        ensures kept { OnErr result (self.new ≡ self.old) }
    {
        let Ok(()) = self
            .watch
            .reserve(definition.nodes(), self.model.nodes().as_slice())
        else {
            drop(definition);
            return Err(AllocError);
        };
        self.sets.define(definition);
        Ok(())
    }

    /// Answers a definition: the data set and all the memory that it needs are made, and then time passes.
    pub(crate) fn answer_definition(
        &mut self,
        alloc: Global,
        moment: Moment,
        a: AssocNo,
        domain: &Octs,
        item: &Octs,
        members: &Targets,
    ) -> Result<Reply, AllocError>
        requires number { IsNumber a.0 }
        requires fits { IsFitting self.old.config
            (services.Define domain.now item.now members.now) }
        ensures answered { IfOk result (λ r. IsReplied self.old self.new moment a.0
            (services.Define domain.now item.now members.now) r) }
        ensures kept { OnOk result (IsKept self.old self.new) }
        ensures refused { OnErr result (self.new ≡ self.old) }
    {
        let _ = &self.sets;
        let name = set_name(alloc, domain, item)?;
        let is_named = is_set_name(&self.model, &name);
        let nodes = self.model.nodes();
        if let Some(fault) = self
            .sets
            .define_fault(&name, is_named, members.as_slice(), nodes)
        {
            self.arrive(moment);
            return Ok(refusal(fault));
        }
        let Ok(definition) = Definition::new(alloc, &name, members.as_slice()) else {
            drop(name);
            return Err(AllocError);
        };
        drop(name);
        self.define(definition)?;
        self.arrive(moment);
        Ok(Reply::Defined)
    }
}
