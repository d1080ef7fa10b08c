//! What confirmed services ask of the bay (ISO 9506-2, ConfirmedServiceRequest; IEC 61850-8-1, their use).

ghost use Rattle.std.specs.Prelude.{◌≡◌, map, IfOk};
ghost use Rattle.std.specs.Option.{option_map};
ghost use Rattle.ber_grammar.specs.Place.{piece};
ghost use Rattle.mms_data.specs.Reading.{in_row};
ghost use Rattle.mms_pdu.specs.Datum.{value_at};
ghost use Rattle.mms_pdu.specs.ObjectName.{name_octets};
ghost use Rattle.mms_pdu.specs.Service.{service_octets, scope_octets, octets as octets_of};
ghost use Rattle.mms_pdu.specs.Variable.{variable_octets};
ghost use Rattle.mms_pdu.specs.View.{name as name_seen, service as service_seen};
ghost use Rattle.mms_pdu.specs.View.{scope as scope_seen};
ghost use Rattle.bay_requests.specs.Requests.{read_set, write_set, define, set_of};
ghost use Rattle.bay_requests.specs.Requests.{scope as scope_named, service as service_asked};

use crate::names::{set_name, set_names, target_of, targets_of};
use crate::values::{values_of, writes_of};
use bay_model::{Scope, Service, SetNames, Targets, Writes};
use mms_pdu::{DataList, NameView, ScopeView, ServiceView, VariableList};
use object_model::Model;
use std::alloc::{AllocError, Global};
use sv_base::Octs;

fn scope_of(alloc: Global, scope: ScopeView<'_>) -> Result<Scope, AllocError>
    ensures { IfOk result (λ s. s ≡ scope_named (scope_octets (scope_seen scope.entry))) }
{
    match scope {
        ScopeView::Vmd => Ok(Scope::Vmd),
        ScopeView::Domain(domain) => Ok(Scope::Domain(Octs::copied(alloc, domain)?)),
        ScopeView::Association => Ok(Scope::Assoc),
    }
}

fn after_of(alloc: Global, after: Option<&[u8]>) -> Result<Option<Octs>, AllocError>
    ensures { IfOk result (λ o. o ≡ option_map octets_of (option_map piece after.entry)) }
{
    match after {
        Some(name) => Ok(Some(Octs::copied(alloc, name)?)),
        None => Ok(None),
    }
}

fn read_set_of(alloc: Global, name: &NameView<'_>, spec: bool) -> Result<Service, AllocError>
    ensures { IfOk result (λ s. s ≡ read_set (name_octets (name_seen name.now)) spec) }
{
    let set = set_name(alloc, name)?;
    Ok(Service::ReadSet {
        domain: set.domain,
        item: set.item,
        spec,
    })
}

fn write_set_of(
    alloc: Global,
    name: &NameView<'_>,
    values: DataList<'_>,
) -> Result<Service, AllocError>
    ensures { IfOk result (λ s. s ≡ write_set (name_octets (name_seen name.now))
        (map value_at values.entry)) }
{
    let set = set_name(alloc, name)?;
    let values = values_of(alloc, values)?;
    Ok(Service::WriteSet {
        domain: set.domain,
        item: set.item,
        values,
    })
}

fn define_of(
    alloc: Global,
    model: &Model,
    name: &NameView<'_>,
    members: VariableList<'_>,
) -> Result<Service, AllocError>
    ensures { IfOk result (λ s. s ≡ define model.now (name_octets (name_seen name.now))
        (map variable_octets members.entry)) }
{
    let set = set_name(alloc, name)?;
    let members = targets_of(alloc, model, members)?;
    Ok(Service::Define {
        domain: set.domain,
        item: set.item,
        members: Targets::from_vec(members),
    })
}

fn set_of_name(alloc: Global, name: &NameView<'_>) -> Result<Service, AllocError>
    ensures { IfOk result (λ s. s ≡ set_of (name_octets (name_seen name.now))) }
{
    let set = set_name(alloc, name)?;
    Ok(Service::SetOf {
        domain: set.domain,
        item: set.item,
    })
}

/// What a confirmed service asks.
pub(crate) fn service_of(
    alloc: Global,
    model: &Model,
    service: ServiceView<'_>,
) -> Result<Service, AllocError>
    ensures { IfOk result (λ s. s ≡ service_asked model.now
        (service_octets (service_seen service.entry))) }
{
    match service {
        ServiceView::Status => Ok(Service::Status),
        ServiceView::Identify => Ok(Service::Identify),
        ServiceView::Names {
            class,
            scope,
            after,
        } => Ok(Service::Names {
            class,
            scope: scope_of(alloc, scope)?,
            after: after_of(alloc, after)?,
        }),
        ServiceView::TypeOfNode(name) => Ok(Service::TypeOfNode(target_of(alloc, model, &name)?)),
        ServiceView::Read { variables, spec } => {
            let targets = Targets::from_vec(targets_of(alloc, model, variables)?);
            Ok(Service::Read { targets, spec })
        }
        ServiceView::ReadSet { name, spec } => read_set_of(alloc, &name, spec),
        ServiceView::WriteVars { variables, values } => {
            let writes = writes_of(alloc, model, variables, values)?;
            Ok(Service::WriteVars(Writes::from_vec(writes)))
        }
        ServiceView::WriteSet { name, values } => write_set_of(alloc, &name, values),
        ServiceView::Define { name, members } => define_of(alloc, model, &name, members),
        ServiceView::SetOf(name) => set_of_name(alloc, &name),
        ServiceView::Delete { scope, names } => {
            let names = SetNames::from_vec(set_names(alloc, names)?);
            Ok(Service::Delete { scope, names })
        }
    }
}
