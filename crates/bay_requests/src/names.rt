//! Names of variables and of data sets as the bay has them (ISO 9506-2, ObjectName).

ghost use Rattle.std.specs.Prelude.{◌≡◌, map, IfOk};
ghost use Rattle.std.specs.Option.{option_map};
ghost use Rattle.mms_pdu.specs.ObjectName.{name_octets};
ghost use Rattle.mms_pdu.specs.Variable.{variable_octets};
ghost use Rattle.mms_pdu.specs.View.{name as name_seen, variable as variable_seen};
ghost use Rattle.bay_requests.specs.Requests.{object_name as object_name_of};
ghost use Rattle.bay_requests.specs.Requests.{set_name as set_name_of};
ghost use Rattle.bay_requests.specs.Requests.{node_of as node_named_by, target as target_named};
ghost use Rattle.bay_requests.specs.Requests.{listed_target};

use bay_model::{ObjName, SetName, Target};
use mms_pdu::{NameList, NameView, VariableList, VariableView};
use object_model::Model;
use std::alloc::{AllocError, Global};
use sv_base::{NodeId, Octs};

fn object_name(alloc: Global, name: &NameView<'_>) -> Result<ObjName, AllocError>
    ensures { IfOk result (λ n. n ≡ object_name_of (name_octets (name_seen name.now))) }
{
    match *name {
        NameView::Vmd(octets) => Ok(ObjName::Vmd(Octs::copied(alloc, octets)?)),
        NameView::Domain { domain, item } => Ok(ObjName::Domain {
            domain: Octs::copied(alloc, domain)?,
            item: Octs::copied(alloc, item)?,
        }),
        NameView::Association(octets) => Ok(ObjName::Assoc(Octs::copied(alloc, octets)?)),
    }
}

/// The node that a name names.
fn node_of(model: &Model, name: &NameView<'_>) -> Option<NodeId>
    ensures { option_map (λ n. n.0) result ≡ node_named_by model.now
        (name_octets (name_seen name.now)) }
{
    match *name {
        NameView::Domain { domain, item } => model.resolve(domain, item),
        NameView::Vmd(_) | NameView::Association(_) => None,
    }
}

/// The variable of a name.
pub(crate) fn target_of(
    alloc: Global,
    model: &Model,
    name: &NameView<'_>,
) -> Result<Target, AllocError>
    ensures { IfOk result (λ t. t ≡ target_named model.now (name_octets (name_seen name.now))) }
{
    let asked = object_name(alloc, name)?;
    match node_of(model, name) {
        Some(node) => Ok(Target::Node(node, asked)),
        None => Ok(Target::Missing(asked)),
    }
}

/// A variable of a list.
pub(crate) fn listed_target_of(
    alloc: Global,
    model: &Model,
    variable: &VariableView<'_>,
) -> Result<Target, AllocError>
    ensures { IfOk result (λ t. t ≡ listed_target model.now
        (variable_octets (variable_seen variable.now))) }
{
    let asked = object_name(alloc, &variable.name)?;
    match node_of(model, &variable.name) {
        Some(_) if variable.alternate => Ok(Target::Alternate(asked)),
        Some(node) => Ok(Target::Node(node, asked)),
        None => Ok(Target::Missing(asked)),
    }
}

/// The variables of a list, in order.
pub(crate) fn targets_of(
    alloc: Global,
    model: &Model,
    variables: VariableList<'_>,
) -> Result<Vec<Target>, AllocError>
    ensures { IfOk result (λ ts. ts.items ≡ map (listed_target model.now)
        (map variable_octets variables.entry)) }
{
    let mut targets = Vec::new(alloc);
    for variable in variables {
        let target = listed_target_of(alloc, model, &variable)?;
        targets.push(target)?;
    }
    Ok(targets)
}

/// The name of a named variable list.
pub(crate) fn set_name(alloc: Global, name: &NameView<'_>) -> Result<SetName, AllocError>
    ensures { IfOk result (λ s. s ≡ set_name_of (name_octets (name_seen name.now))) }
{
    match *name {
        NameView::Domain { domain, item } => Ok(SetName {
            domain: Octs::copied(alloc, domain)?,
            item: Octs::copied(alloc, item)?,
        }),
        NameView::Vmd(item) | NameView::Association(item) => Ok(SetName {
            domain: Octs::from_vec(Vec::new(alloc)),
            item: Octs::copied(alloc, item)?,
        }),
    }
}

/// The names of named variable lists, in order.
pub(crate) fn set_names(alloc: Global, names: NameList<'_>) -> Result<Vec<SetName>, AllocError>
    ensures { IfOk result (λ ss. ss.items ≡ map set_name_of (map name_octets names.entry)) }
{
    let mut sets = Vec::new(alloc);
    for name in names {
        let set = set_name(alloc, &name)?;
        sets.push(set)?;
    }
    Ok(sets)
}
