//! The nodes without parts that lines make, with the most octets of the Data of each: those that are asked for, or have above
//! them what is.

ghost use Rattle.std.specs.Prelude.{◌≡◌, ◌<◌, ◌++◌, ◌∷◌, [], map, codes, reverse, IfOk, OnOk};
ghost use Rattle.sv_base.specs.declared.parameters.CtlParameter.TheVariants.{SboTimeout, SboClass};
ghost use Rattle.sv_base.specs.Parameters.{parameter_name, parameter_kind};
ghost use Rattle.cfg_lines.specs.Claims.{settings};
ghost use Rattle.cfg_lines.specs.Paths.{below as below_front, item_key as item_key_of};
ghost use Rattle.cfg_lines.specs.Sizes.{element_octets as element_octets_of};
ghost use Rattle.cfg_lines.specs.Sizes.{most_octets as most_octets_of};
ghost use Rattle.cfg_lines.specs.Nodes.{leaves_by, leaves as leaves_before, setting_leaf};
ghost use Rattle.cfg_nodes.specs.Asked.{wanted, IsRight};

use crate::asked::Asked;
use crate::leaf_list::Leaves;
use crate::spot::Spot;
use cfg_lines::{Line, below, item_key, put_item_key};
use std::alloc::{AllocError, Global};
use sv_base::{AttrDef, CtlDef, CtlParameter, TypeOf, ctl_models};

/// The octets of Data with n octets of content.
pub fn element_octets(content: u32) -> u32
    requires { content < 65536 }
    ensures { result ≡ element_octets_of content }
{
    if content < 128 {
        2 + content
    } else if content < 256 {
        3 + content
    } else {
        4 + content
    }
}

/// The most octets that the Data of a type may have.
fn most_octets(kind: &TypeOf) -> u32
    ensures { result ≡ most_octets_of kind.now }
{
    match kind {
        TypeOf::Bool => 3,
        TypeOf::Int(bits) => element_octets(u32::from(*bits) / 8),
        TypeOf::Uint(bits) => element_octets(u32::from(*bits) / 8 + 1),
        TypeOf::Bits(count) => element_octets(1 + (u32::from(*count) + 7) / 8),
        TypeOf::Time => 10,
        TypeOf::Text(most) => element_octets(u32::from(*most)),
        TypeOf::Octets(most) => element_octets(u32::from(*most)),
        _ => 0,
    }
}

/// Adds a node, if it is asked for or has above it what is.
fn push_wanted(
    leaves: &mut Leaves,
    asked: &Asked,
    name: &[u8],
    octets: u32,
) -> Result<(), AllocError>
    ensures { OnOk result (leaves.new ≡ leaves.old ++ wanted asked.now
        ((record { name = name.now; octets = octets }) ∷ [])) }
{
    if asked.wants(name) {
        return leaves.push(name, octets);
    }
    Ok(())
}

/// Adds the node of an attribute, whose name is joined in a buffer, if there is something to be found in its logical node.
fn push_attribute<'a>(
    room: &mut Vec<u8>,
    spot: &mut Spot<'a>,
    leaves: &mut Leaves,
    asked: &Asked,
    attr: &'a AttrDef,
) -> Result<(), AllocError>
    requires spot { IsRight asked.now spot.old }
    ensures spot { OnOk result (IsRight asked.now spot.new) }
    ensures leaves { OnOk result (leaves.new ≡ leaves.old ++ wanted asked.now
        ((record {
          name = item_key_of attr.now.domain attr.now.ln attr.now.fc attr.now.path;
          octets = most_octets_of attr.now.kind;
        }) ∷ [])) }
{
    spot.turn_to(room, asked, attr.domain.as_slice(), attr.ln.as_slice())?;
    if !spot.is_wanted {
        return Ok(());
    }
    put_item_key(
        room,
        attr.domain.as_slice(),
        attr.ln.as_slice(),
        attr.fc.as_slice(),
        attr.path.as_slice(),
    )?;
    push_wanted(leaves, asked, room, most_octets(&attr.kind))
}

fn push_setting(
    alloc: Global,
    leaves: &mut Leaves,
    asked: &Asked,
    front: &[u8],
    parameter: CtlParameter,
) -> Result<(), AllocError>
    ensures { OnOk result (leaves.new ≡ leaves.old ++ wanted asked.now
        ((record {
          name = below_front front.now (parameter_name parameter);
          octets = most_octets_of (parameter_kind parameter);
        }) ∷ [])) }
{
    let octets = most_octets(&parameter.kind());
    let name = below(alloc, front, parameter.name())?;
    push_wanted(leaves, asked, &name, octets)
}

/// What a control that is selected first has besides under CF.
fn push_selection(
    alloc: Global,
    leaves: &mut Leaves,
    asked: &Asked,
    front: &[u8],
) -> Result<(), AllocError>
    ensures { OnOk result (leaves.new ≡ leaves.old ++ wanted asked.now
        (map (setting_leaf front.now) (parameter_name SboTimeout ∷ parameter_name SboClass ∷ []))) }
{
    push_setting(alloc, leaves, asked, front, CtlParameter::SboTimeout)?;
    push_setting(alloc, leaves, asked, front, CtlParameter::SboClass)?;
    Ok(())
}

/// What a control has under CF.
fn push_settings(
    alloc: Global,
    leaves: &mut Leaves,
    asked: &Asked,
    front: &[u8],
    model: u8,
) -> Result<(), AllocError>
    ensures { OnOk result (leaves.new ≡ leaves.old ++ wanted asked.now (map (setting_leaf front.now)
        (settings model))) }
{
    push_setting(alloc, leaves, asked, front, CtlParameter::CtlModel)?;
    if model == ctl_models::SBO_NORMAL {
        return push_selection(alloc, leaves, asked, front);
    }
    if model == ctl_models::SBO_ENHANCED {
        return push_selection(alloc, leaves, asked, front);
    }
    Ok(())
}

fn push_control(
    alloc: Global,
    leaves: &mut Leaves,
    asked: &Asked,
    control: &CtlDef,
) -> Result<(), AllocError>
    ensures { OnOk result (leaves.new ≡ leaves.old ++ wanted asked.now
        (map (setting_leaf (item_key_of control.now.domain control.now.ln
        (codes "CF") control.now.path)) (settings control.now.model))) }
{
    let front = item_key(
        alloc,
        control.domain.as_slice(),
        control.ln.as_slice(),
        b"CF",
        control.path.as_slice(),
    )?;
    push_settings(alloc, leaves, asked, &front, control.model)
}

fn push_leaves<'a>(
    alloc: Global,
    room: &mut Vec<u8>,
    spot: &mut Spot<'a>,
    leaves: &mut Leaves,
    asked: &Asked,
    line: &'a Line,
) -> Result<(), AllocError>
    requires spot { IsRight asked.now spot.old }
    ensures spot { OnOk result (IsRight asked.now spot.new) }
    ensures leaves { OnOk result (leaves.new ≡ leaves.old ++ wanted asked.now
        (leaves_by line.now)) }
{
    match line {
        Line::Attr(attr) => push_attribute(room, spot, leaves, asked, attr),
        Line::Ctl(control) => push_control(alloc, leaves, asked, control),
        _ => Ok(()),
    }
}

/// What lines make, from the first to the last, if it is asked for or has above it what is.
pub fn leaves_of(alloc: Global, lines: &[Line], asked: &Asked) -> Result<Leaves, AllocError>
    ensures { IfOk result (λ leaves. leaves ≡ wanted asked.now
        (leaves_before (reverse lines.now))) }
{
    let mut leaves = Leaves::with_capacity(alloc, lines.len())?;
    let mut room = Vec::new(alloc);
    let mut spot = Spot::new();
    for line in lines {
        push_leaves(alloc, &mut room, &mut spot, &mut leaves, asked, line)?;
    }
    Ok(leaves)
}
