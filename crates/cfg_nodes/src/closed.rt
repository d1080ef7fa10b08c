//! The nodes that no data set may have: report control blocks, setting group control blocks, controls and edited values.

ghost use Rattle.std.specs.Prelude.{◌≡◌, ◌++◌, ◌∷◌, [], codes, map, reverse, IfOk, OnOk};
ghost use Rattle.sv_base.specs.CallParts.{part_name};
ghost use Rattle.sv_base.specs.declared.ctl_services.CtlService.TheVariants as services;
ghost use Rattle.sv_base.specs.CtlServices.{service_name};
ghost use Rattle.cfg_lines.specs.Claims.{operations, group_key as group_key_of};
ghost use Rattle.cfg_lines.specs.Paths.{below as below_front, item_key as item_key_of};
ghost use Rattle.cfg_lines.specs.Nodes.{all_below, with_parts, block_parts, group_parts};
ghost use Rattle.cfg_lines.specs.Nodes.{operation_parts, operations_below, twins, closed_by};
ghost use Rattle.cfg_lines.specs.Nodes.{closed as closed_before};

use cfg_lines::{Line, below, group_key, item_key};
use std::alloc::{AllocError, Global};
use sv_base::{
    AttrDef, BlockDef, CallPart, Comp, CtlDef, CtlService, Octs, SettingComp, SgDef, ctl_models,
};

fn push_below(
    alloc: Global,
    names: &mut Vec<Octs>,
    front: &[u8],
    name: &[u8],
) -> Result<(), AllocError>
    ensures { OnOk result (names.new.items ≡ names.old.items
        ++ below_front front.now name.now ∷ []) }
{
    let name = Octs::from_vec(below(alloc, front, name)?);
    names.push(name)?;
    Ok(())
}

fn push_components(alloc: Global, names: &mut Vec<Octs>, front: &[u8]) -> Result<(), AllocError>
    ensures { OnOk result (names.new.items ≡ names.old.items ++ all_below front.now block_parts) }
{
    for comp in &Comp::ALL {
        push_below(alloc, names, front, comp.name())?;
    }
    Ok(())
}

fn push_setting_components(
    alloc: Global,
    names: &mut Vec<Octs>,
    front: &[u8],
) -> Result<(), AllocError>
    ensures { OnOk result (names.new.items ≡ names.old.items ++ all_below front.now group_parts) }
{
    for comp in &SettingComp::ALL {
        push_below(alloc, names, front, comp.name())?;
    }
    Ok(())
}

fn push_parts(
    alloc: Global,
    names: &mut Vec<Octs>,
    front: &[u8],
    parts: &[CallPart],
) -> Result<(), AllocError>
    ensures { OnOk result (names.new.items ≡ names.old.items ++ all_below front.now
        (map part_name parts.now)) }
{
    for part in parts {
        push_below(alloc, names, front, part.name())?;
    }
    Ok(())
}

fn push_operation(
    alloc: Global,
    names: &mut Vec<Octs>,
    front: &[u8],
    service: CtlService,
    parts: &[CallPart],
) -> Result<(), AllocError>
    ensures { OnOk result (names.new.items ≡ names.old.items ++ with_parts
        (below_front front.now (service_name service)) (map part_name parts.now)) }
{
    let node = below(alloc, front, service.name())?;
    names.push(Octs::copied(alloc, &node)?)?;
    push_parts(alloc, names, &node, parts)
}

/// What a control that is selected first has besides under CO.
fn push_selection(
    alloc: Global,
    names: &mut Vec<Octs>,
    front: &[u8],
    select: CtlService,
    parts: &[CallPart],
) -> Result<(), AllocError>
    ensures { OnOk result (names.new.items ≡ names.old.items ++
        (with_parts (below_front front.now (service_name select))
        (map part_name parts.now) ++ with_parts
        (below_front front.now (service_name services.Cancel))
        (operation_parts (service_name services.Cancel)))) }
{
    push_operation(alloc, names, front, select, parts)?;
    push_operation(alloc, names, front, CtlService::Cancel, &CallPart::ALL[..6])?;
    Ok(())
}

/// What a control has under CO.
fn push_operations(
    alloc: Global,
    names: &mut Vec<Octs>,
    front: &[u8],
    model: u8,
) -> Result<(), AllocError>
    ensures { OnOk result (names.new.items ≡ names.old.items ++ operations_below front.now
        (operations model)) }
{
    push_operation(alloc, names, front, CtlService::Oper, &CallPart::ALL)?;
    if model == ctl_models::SBO_NORMAL {
        return push_selection(alloc, names, front, CtlService::Sbo, &[]);
    }
    if model == ctl_models::SBO_ENHANCED {
        return push_selection(
            alloc,
            names,
            front,
            CtlService::SboWithValue,
            &CallPart::ALL,
        );
    }
    Ok(())
}

fn push_control(alloc: Global, names: &mut Vec<Octs>, control: &CtlDef) -> Result<(), AllocError>
    ensures { OnOk result (names.new.items ≡ names.old.items ++ operations_below
        (item_key_of control.now.domain control.now.ln (codes "CO") control.now.path)
        (operations control.now.model)) }
{
    let front = item_key(
        alloc,
        control.domain.as_slice(),
        control.ln.as_slice(),
        b"CO",
        control.path.as_slice(),
    )?;
    push_operations(alloc, names, &front, control.model)
}

/// What edits an attribute under SG.
fn push_twin(alloc: Global, names: &mut Vec<Octs>, attr: &AttrDef) -> Result<(), AllocError>
    ensures { OnOk result (names.new.items ≡ names.old.items ++ twins attr.now) }
{
    if attr.fc.as_slice() == b"SG".as_slice() {
        let name = item_key(
            alloc,
            attr.domain.as_slice(),
            attr.ln.as_slice(),
            b"SE",
            attr.path.as_slice(),
        )?;
        names.push(Octs::from_vec(name))?;
    }
    Ok(())
}

fn push_block(alloc: Global, names: &mut Vec<Octs>, block: &BlockDef) -> Result<(), AllocError>
    ensures { OnOk result (names.new.items ≡ names.old.items ++ with_parts
        (item_key_of block.now.domain block.now.ln (codes "BR") block.now.name) block_parts) }
{
    let node = item_key(
        alloc,
        block.domain.as_slice(),
        block.ln.as_slice(),
        b"BR",
        block.name.as_slice(),
    )?;
    names.push(Octs::copied(alloc, &node)?)?;
    push_components(alloc, names, &node)
}

fn push_groups(alloc: Global, names: &mut Vec<Octs>, groups: &SgDef) -> Result<(), AllocError>
    ensures { OnOk result (names.new.items ≡ names.old.items ++ with_parts
        (group_key_of groups.now.domain (codes "LLN0")) group_parts) }
{
    let node = group_key(alloc, groups.domain.as_slice())?;
    names.push(Octs::copied(alloc, &node)?)?;
    push_setting_components(alloc, names, &node)
}

fn push_closed(alloc: Global, names: &mut Vec<Octs>, line: &Line) -> Result<(), AllocError>
    ensures { OnOk result (names.new.items ≡ names.old.items ++ closed_by line.now) }
{
    match line {
        Line::Attr(attr) => push_twin(alloc, names, attr),
        Line::Brcb(block) => push_block(alloc, names, block),
        Line::Ctl(control) => push_control(alloc, names, control),
        Line::Sgcb(groups) => push_groups(alloc, names, groups),
        _ => Ok(()),
    }
}

/// What lines make, from the first to the last.
pub fn closed_of(alloc: Global, lines: &[Line]) -> Result<Vec<Octs>, AllocError>
    ensures { IfOk result (λ names. names.items ≡ closed_before (reverse lines.now)) }
{
    let mut names = Vec::new(alloc);
    for line in lines {
        push_closed(alloc, &mut names, line)?;
    }
    Ok(names)
}
