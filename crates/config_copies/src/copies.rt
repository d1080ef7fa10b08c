//! A configuration again.

ghost use Rattle.std.specs.Prelude.{◌≡◌, IfOk};

use crate::values::copy_value;
use std::alloc::{AllocError, Global};
use sv_base::{
    AttrDef, AttrDefs, BlockDef, BlockDefs, Config, CtlDef, CtlDefs, Few, FirstValues, LnDef,
    LnDefs, Octs, OctsList, SetDef, SetDefs, SgDef, SgDefs, Value,
};

fn copy_octs(alloc: Global, list: &[Octs]) -> Result<Vec<Octs>, AllocError>
    ensures { IfOk result (λ v. v.items ≡ list.now) }
{
    let mut copies = Vec::new(alloc);
    for octs in list {
        copies.push(octs.copy(alloc)?)?;
    }
    Ok(copies)
}

fn copy_values(alloc: Global, values: &[Value]) -> Result<Few<Value>, AllocError>
    ensures { IfOk result (λ v. v ≡ values.now) }
{
    if let [value] = values {
        return Ok(Few::one(copy_value(alloc, value)?));
    }
    let mut copies = Vec::new(alloc);
    for value in values {
        copies.push(copy_value(alloc, value)?)?;
    }
    Ok(Few::many(copies))
}

fn copy_ln(alloc: Global, ln: &LnDef) -> Result<LnDef, AllocError>
    ensures { IfOk result (λ d. d ≡ ln.now) }
{
    Ok(LnDef {
        line: ln.line,
        domain: ln.domain.copy(alloc)?,
        ln: ln.ln.copy(alloc)?,
    })
}

fn copy_lns(alloc: Global, lns: &[LnDef]) -> Result<Vec<LnDef>, AllocError>
    ensures { IfOk result (λ v. v.items ≡ lns.now) }
{
    let mut copies = Vec::new(alloc);
    for ln in lns {
        copies.push(copy_ln(alloc, ln)?)?;
    }
    Ok(copies)
}

fn copy_attr(alloc: Global, attr: &AttrDef) -> Result<AttrDef, AllocError>
    ensures { IfOk result (λ d. d ≡ attr.now) }
{
    let values = copy_values(alloc, attr.values.as_slice())?;
    Ok(AttrDef {
        line: attr.line,
        domain: attr.domain.share()?,
        ln: attr.ln.share()?,
        fc: attr.fc.copy(alloc)?,
        path: attr.path.copy(alloc)?,
        kind: attr.kind.share()?,
        dchg: attr.dchg,
        qchg: attr.qchg,
        dupd: attr.dupd,
        values: FirstValues::new(values),
    })
}

fn copy_attrs(alloc: Global, attrs: &[AttrDef]) -> Result<Vec<AttrDef>, AllocError>
    ensures { IfOk result (λ v. v.items ≡ attrs.now) }
{
    let mut copies = Vec::new(alloc);
    for attr in attrs {
        copies.push(copy_attr(alloc, attr)?)?;
    }
    Ok(copies)
}

fn copy_set(alloc: Global, set: &SetDef) -> Result<SetDef, AllocError>
    ensures { IfOk result (λ d. d ≡ set.now) }
{
    let members = copy_octs(alloc, set.members.as_slice())?;
    Ok(SetDef {
        line: set.line,
        domain: set.domain.copy(alloc)?,
        ln: set.ln.copy(alloc)?,
        name: set.name.copy(alloc)?,
        members: OctsList::from_vec(members),
    })
}

fn copy_sets(alloc: Global, sets: &[SetDef]) -> Result<Vec<SetDef>, AllocError>
    ensures { IfOk result (λ v. v.items ≡ sets.now) }
{
    let mut copies = Vec::new(alloc);
    for set in sets {
        copies.push(copy_set(alloc, set)?)?;
    }
    Ok(copies)
}

fn copy_block(alloc: Global, block: &BlockDef) -> Result<BlockDef, AllocError>
    ensures { IfOk result (λ d. d ≡ block.now) }
{
    Ok(BlockDef {
        line: block.line,
        domain: block.domain.copy(alloc)?,
        ln: block.ln.copy(alloc)?,
        name: block.name.copy(alloc)?,
        rpt_id: block.rpt_id.copy(alloc)?,
        dat_set: block.dat_set.copy(alloc)?,
        conf_rev: block.conf_rev,
        opt_flds: block.opt_flds.copy(alloc)?,
        buf_tm: block.buf_tm,
        trg_ops: block.trg_ops.copy(alloc)?,
        intg_pd: block.intg_pd,
        capacity: block.capacity,
    })
}

fn copy_blocks(alloc: Global, blocks: &[BlockDef]) -> Result<Vec<BlockDef>, AllocError>
    ensures { IfOk result (λ v. v.items ≡ blocks.now) }
{
    let mut copies = Vec::new(alloc);
    for block in blocks {
        copies.push(copy_block(alloc, block)?)?;
    }
    Ok(copies)
}

fn copy_control(alloc: Global, control: &CtlDef) -> Result<CtlDef, AllocError>
    ensures { IfOk result (λ d. d ≡ control.now) }
{
    Ok(CtlDef {
        line: control.line,
        domain: control.domain.copy(alloc)?,
        ln: control.ln.copy(alloc)?,
        path: control.path.copy(alloc)?,
        model: control.model,
        timeout: control.timeout,
        class: control.class,
        kind: control.kind.share()?,
    })
}

fn copy_controls(alloc: Global, controls: &[CtlDef]) -> Result<Vec<CtlDef>, AllocError>
    ensures { IfOk result (λ v. v.items ≡ controls.now) }
{
    let mut copies = Vec::new(alloc);
    for control in controls {
        copies.push(copy_control(alloc, control)?)?;
    }
    Ok(copies)
}

fn copy_group(alloc: Global, group: &SgDef) -> Result<SgDef, AllocError>
    ensures { IfOk result (λ d. d ≡ group.now) }
{
    Ok(SgDef {
        line: group.line,
        domain: group.domain.copy(alloc)?,
        count: group.count,
        active: group.active,
    })
}

fn copy_groups(alloc: Global, groups: &[SgDef]) -> Result<Vec<SgDef>, AllocError>
    ensures { IfOk result (λ v. v.items ≡ groups.now) }
{
    let mut copies = Vec::new(alloc);
    for group in groups {
        copies.push(copy_group(alloc, group)?)?;
    }
    Ok(copies)
}

/// The same configuration again.
pub fn copy_config(alloc: Global, config: &Config) -> Result<Config, AllocError>
    ensures { IfOk result (λ c. c ≡ config.now) }
{
    let nodes = copy_lns(alloc, config.nodes.as_slice())?;
    let attrs = copy_attrs(alloc, config.attrs.as_slice())?;
    let sets = copy_sets(alloc, config.sets.as_slice())?;
    let blocks = copy_blocks(alloc, config.blocks.as_slice())?;
    let controls = copy_controls(alloc, config.controls.as_slice())?;
    let groups = copy_groups(alloc, config.groups.as_slice())?;
    Ok(Config {
        vendor: config.vendor.copy(alloc)?,
        model: config.model.copy(alloc)?,
        revision: config.revision.copy(alloc)?,
        nodes: LnDefs::from_vec(nodes),
        attrs: AttrDefs::from_vec(attrs),
        sets: SetDefs::from_vec(sets),
        blocks: BlockDefs::from_vec(blocks),
        controls: CtlDefs::from_vec(controls),
        groups: SgDefs::from_vec(groups),
    })
}
