//! The references of blocks and controls, in the order of their numbers.

ghost use Rattle.std.specs.Prelude.{◌≡◌, ◌∷◌, ◌++◌, [], IfOk, OnOk};
ghost use Rattle.bay_model.specs.Lookups.{reference_of};
ghost use Rattle.bay_model.specs.Configured.{block_defined, control_defined};
ghost use Rattle.bay_model.specs.NamedLines.{path_item};
ghost use Rattle.name_leaves.specs.References.{block_references as blocks_of};
ghost use Rattle.name_leaves.specs.References.{control_references as controls_of};

use name_leaves::extend_item;
use octet_rows::Index;
use std::alloc::{AllocError, Global};
use sv_base::{BlockDef, Config, CtlDef};

/// Makes a text `LD/LN$FC$PATH`, in the memory that it has.
pub fn write_reference(
    text: &mut Vec<u8>,
    domain: &[u8],
    ln: &[u8],
    fc: &[u8],
    path: &[u8],
) -> Result<(), AllocError>
    ensures { OnOk result (text.new.items ≡ reference_of domain.now
        (path_item ln.now fc.now path.now)) }
{
    text.clear();
    text.extend_from_slice(domain)?;
    text.push(b'/')?;
    extend_item(text, ln, fc, path)
}

fn push_block(out: &mut Index, text: &mut Vec<u8>, block: &BlockDef) -> Result<(), AllocError>
    ensures { OnOk result (out.new ≡ out.old ++ (block_defined block.now).reference ∷ []) }
{
    write_reference(
        text,
        block.domain.as_slice(),
        block.ln.as_slice(),
        b"BR",
        block.name.as_slice(),
    )?;
    out.push(text)
}

fn push_control(out: &mut Index, text: &mut Vec<u8>, control: &CtlDef) -> Result<(), AllocError>
    ensures { OnOk result (out.new ≡ out.old ++ (control_defined control.now).reference ∷ []) }
{
    write_reference(
        text,
        control.domain.as_slice(),
        control.ln.as_slice(),
        b"CO",
        control.path.as_slice(),
    )?;
    out.push(text)
}

/// The references of the blocks.
pub fn block_references(alloc: Global, config: &Config) -> Result<Index, AllocError>
    ensures { IfOk result (λ references. references ≡ blocks_of config.now) }
{
    let mut references = Index::new(alloc);
    let mut text = Vec::new(alloc);
    for block in config.blocks.as_slice() {
        push_block(&mut references, &mut text, block)?;
    }
    Ok(references)
}

/// The references of the controls.
pub fn control_references(alloc: Global, config: &Config) -> Result<Index, AllocError>
    ensures { IfOk result (λ references. references ≡ controls_of config.now) }
{
    let mut references = Index::new(alloc);
    let mut text = Vec::new(alloc);
    for control in config.controls.as_slice() {
        push_control(&mut references, &mut text, control)?;
    }
    Ok(references)
}
