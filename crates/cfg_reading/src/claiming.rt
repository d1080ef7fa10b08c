//! The names that a line takes.

ghost use Rattle.std.specs.Prelude.{◌≡◌, ◌||◌, List, ℕ, codes, OnOk};
ghost use Rattle.std.specs.Str.{bytes_eq};
ghost use Rattle.cfg_lines.specs.Keys.{is_among};
ghost use Rattle.cfg_lines.specs.Paths.{below, node_key as node_key_of, item_key as item_key_of};
ghost use Rattle.cfg_lines.specs.Paths.{clashes, is_taken};
ghost use Rattle.cfg_lines.specs.Claims.{control_keys as control_keys_of};
ghost use Rattle.cfg_lines.specs.Claims.{group_key as group_key_of};

use cfg_lines::{
    Keys, Names, control_keys, group_key, item_key, node_item, node_key, put_item_key,
};
use std::alloc::{AllocError, Global};
use sv_base::{AttrDef, BlockDef, CtlDef, LnDef, SetDef, SgDef};

/// Adds the reference of a logical node.
pub fn add_node(alloc: Global, heads: &mut Keys, node: &LnDef) -> Result<(), AllocError>
    ensures { OnOk result ((key : List ℕ)
        → is_among heads.new key ≡ (bytes_eq key (node_key_of node.now.domain node.now.ln)
        || is_among heads.old key)) }
{
    let key = node_key(alloc, node.domain.as_slice(), node.ln.as_slice())?;
    heads.add(&key)
}

/// Adds the reference of a data set.
pub fn add_set(alloc: Global, sets: &mut Keys, set: &SetDef) -> Result<(), AllocError>
    ensures { OnOk result ((key : List ℕ) → is_among sets.new key ≡
        (bytes_eq key (below (node_key_of set.now.domain set.now.ln) set.now.name)
        || is_among sets.old key)) }
{
    let key = node_item(
        alloc,
        set.domain.as_slice(),
        set.ln.as_slice(),
        set.name.as_slice(),
    )?;
    sets.add(&key)
}

/// Adds the path of an attribute, which is joined in a buffer.
pub fn add_attribute(
    alloc: Global,
    room: &mut Vec<u8>,
    names: &mut Names,
    attr: &AttrDef,
) -> Result<(), AllocError>
    ensures { OnOk result ((q : List ℕ) → is_taken names.new q ≡
        (clashes q (item_key_of attr.now.domain attr.now.ln attr.now.fc attr.now.path)
        || is_taken names.old q)) }
{
    put_item_key(
        room,
        attr.domain.as_slice(),
        attr.ln.as_slice(),
        attr.fc.as_slice(),
        attr.path.as_slice(),
    )?;
    names.add(alloc, room)
}

/// Adds the path of a report control block.
pub fn add_block(alloc: Global, names: &mut Names, block: &BlockDef) -> Result<(), AllocError>
    ensures { OnOk result ((q : List ℕ) → is_taken names.new q ≡
        (clashes q (item_key_of block.now.domain block.now.ln (codes "BR") block.now.name)
        || is_taken names.old q)) }
{
    let key = item_key(
        alloc,
        block.domain.as_slice(),
        block.ln.as_slice(),
        b"BR",
        block.name.as_slice(),
    )?;
    names.add(alloc, &key)
}

/// Adds the paths of a control.
pub fn add_control(alloc: Global, names: &mut Names, control: &CtlDef) -> Result<(), AllocError>
    ensures { OnOk result ((q : List ℕ) → is_taken names.new q ≡
        (is_taken (control_keys_of control.now.domain control.now.ln control.now.path
        control.now.model) q || is_taken names.old q)) }
{
    let keys = control_keys(
        alloc,
        control.domain.as_slice(),
        control.ln.as_slice(),
        control.path.as_slice(),
        u32::from(control.model),
    )?;
    names.add_all(alloc, &keys)
}

/// Adds the path of a setting group control block.
pub fn add_groups(alloc: Global, names: &mut Names, groups: &SgDef) -> Result<(), AllocError>
    ensures { OnOk result ((q : List ℕ)
        → is_taken names.new q ≡ (clashes q (group_key_of groups.now.domain (codes "LLN0"))
        || is_taken names.old q)) }
{
    let key = group_key(alloc, groups.domain.as_slice())?;
    names.add(alloc, &key)
}
