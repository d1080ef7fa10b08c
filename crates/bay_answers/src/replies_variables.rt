//! Names of variables and lists of variables, written (ISO 9506-2, ObjectName and VariableAccessSpecification).

ghost use Rattle.std.specs.Prelude.{◌≡◌, ◌<◌, ◌++◌, length, OnOk, IfOk};
ghost use Rattle.ber_write.specs.Minimal.{octets_of, CanBeTag};
ghost use Rattle.std.specs.List.{All, flat_map};
ghost use Rattle.mms_pdu.specs.AskingOctets.{domain_name};
ghost use Rattle.mms_elements.specs.declared.tags.TheConstants.{LIST_OF_VARIABLE};
ghost use Rattle.mms_elements.specs.declared.tags.TheConstants.{SPECIFICATION_OF_RESULT};
ghost use Rattle.mms_elements.specs.declared.tags.TheConstants.{VARIABLE_LIST_NAME};
ghost use Rattle.bay_answers.specs.RepliesVariables.{name_octets, variable_octets, target_octets};
ghost use Rattle.bay_answers.specs.RepliesVariables.{asked_octets as asked_of};
ghost use Rattle.bay_answers.specs.RepliesVariables.{node_name as name_of_node, node_octets};
ghost use Rattle.output_shapes.specs.Shapes.{IsNode};

use bay_model::{Asked, ObjName, SetName, Target};
use ber_write::{add, enclosed};
use mms_elements::tags;
use object_model::Model;
use std::alloc::{AllocError, Global};
use sv_base::NodeId;

/// A domain-specific name.
pub(crate) fn domain_octets(
    alloc: Global,
    domain: &[u8],
    item: &[u8],
) -> Result<Vec<u8>, AllocError>
    ensures { IfOk result (λ v. v.items ≡ domain_name domain.now item.now) }
{
    let mut both = enclosed(alloc, tags::IDENTIFIER, domain)?;
    add(&mut both, tags::IDENTIFIER, item)?;
    enclosed(alloc, tags::DOMAIN_SPECIFIC, both.as_slice())
}

/// A name as it was asked for.
fn name(alloc: Global, name: &ObjName) -> Result<Vec<u8>, AllocError>
    ensures { IfOk result (λ v. v.items ≡ name_octets name.now) }
{
    match name {
        ObjName::Vmd(octets) => enclosed(alloc, tags::VMD_SPECIFIC, octets.as_slice()),
        ObjName::Domain { domain, item } => domain_octets(
            alloc,
            domain.as_slice(),
            item.as_slice(),
        ),
        ObjName::Assoc(octets) => enclosed(alloc, tags::AA_SPECIFIC, octets.as_slice()),
    }
}

/// Adds an item of a list: a name, without alternate access.
pub(crate) fn add_variable(alloc: Global, out: &mut Vec<u8>, name: &[u8]) -> Result<(), AllocError>
    ensures { OnOk result (out.new.items ≡ out.old.items ++ variable_octets name.now) }
{
    let content = enclosed(alloc, tags::NAME, name)?;
    add(out, tags::VARIABLE, content.as_slice())
}

/// Adds a variable as it was asked for, but for alternate access.
#[tactic(auto, unfolding(crate::specs::RepliesVariables::target_octets))]
fn add_target(alloc: Global, out: &mut Vec<u8>, target: &Target) -> Result<(), AllocError>
    ensures { OnOk result (out.new.items ≡ out.old.items ++ target_octets target.now) }
{
    match target {
        Target::Node(_, asked) | Target::Missing(asked) | Target::Alternate(asked) => {
            add_variable(alloc, out, name(alloc, asked)?.as_slice())
        }
    }
}

fn add_targets(alloc: Global, out: &mut Vec<u8>, targets: &[Target]) -> Result<(), AllocError>
    ensures { OnOk result (out.new.items ≡ out.old.items ++ flat_map target_octets targets.now) }
{
    for target in targets {
        add_target(alloc, out, target)?;
    }
    Ok(())
}

/// The specification of variables that has this content, under its tag.
fn specification(alloc: Global, tag: u32, content: &[u8]) -> Result<Vec<u8>, AllocError>
    requires { CanBeTag tag }
    ensures { IfOk result (λ v. v.items ≡ octets_of SPECIFICATION_OF_RESULT
        (octets_of tag content.now)) }
{
    let inner = enclosed(alloc, tag, content)?;
    enclosed(alloc, tags::SPECIFICATION_OF_RESULT, inner.as_slice())
}

/// Variables that were asked for, as a list.
fn asked_variables(alloc: Global, targets: &[Target]) -> Result<Vec<u8>, AllocError>
    ensures { IfOk result (λ v. v.items ≡ octets_of SPECIFICATION_OF_RESULT
        (octets_of LIST_OF_VARIABLE (flat_map target_octets targets.now))) }
{
    let mut list = Vec::new(alloc);
    add_targets(alloc, &mut list, targets)?;
    specification(alloc, tags::LIST_OF_VARIABLE, list.as_slice())
}

/// A data set that was asked for, by its name.
fn asked_set(alloc: Global, set: &SetName) -> Result<Vec<u8>, AllocError>
    ensures { IfOk result (λ v. v.items ≡ octets_of SPECIFICATION_OF_RESULT
        (octets_of VARIABLE_LIST_NAME (domain_name set.now.domain set.now.item))) }
{
    let name = domain_octets(alloc, set.domain.as_slice(), set.item.as_slice())?;
    specification(alloc, tags::VARIABLE_LIST_NAME, name.as_slice())
}

/// What was asked for, where that is written back.
#[tactic(auto, unfolding(crate::specs::RepliesVariables::asked_octets))]
pub(crate) fn asked_octets(alloc: Global, asked: &Asked) -> Result<Vec<u8>, AllocError>
    ensures { IfOk result (λ v. v.items ≡ asked_of asked.now) }
{
    match asked {
        Asked::No => Ok(Vec::new(alloc)),
        Asked::Vars(targets) => asked_variables(alloc, targets.as_slice()),
        Asked::Set(set) => asked_set(alloc, set),
    }
}

/// The name of a node.
fn node_name(alloc: Global, model: &Model, node: NodeId) -> Result<Vec<u8>, AllocError>
    requires { IsNode model.now node }
    ensures { IfOk result (λ v. v.items ≡ name_of_node model.now node) }
{
    domain_octets(alloc, model.domain_of(node), model.item_of(node))
}

/// Adds a node by its name.
fn add_node(alloc: Global, out: &mut Vec<u8>, model: &Model, node: NodeId) -> Result<(), AllocError>
    requires { IsNode model.now node }
    ensures { OnOk result (out.new.items ≡ out.old.items ++ node_octets model.now node) }
{
    let name = node_name(alloc, model, node)?;
    add_variable(alloc, out, name.as_slice())
}

/// Adds nodes by their names.
pub(crate) fn add_nodes(
    alloc: Global,
    out: &mut Vec<u8>,
    model: &Model,
    nodes: &[NodeId],
) -> Result<(), AllocError>
    requires { All (IsNode model.now) nodes.now }
    ensures { OnOk result (out.new.items ≡ out.old.items ++ flat_map
        (node_octets model.now) nodes.now) }
{
    for node in nodes {
        add_node(alloc, out, model, *node)?;
    }
    Ok(())
}
