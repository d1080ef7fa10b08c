//! The text of a configuration: its objects' lines in the order of their numbers.

ghost use Rattle.std.specs.Prelude.{◌≡◌, ◌++◌, List, ℕ, [], map, IfOk, OnOk};
ghost use Rattle.cfg_lines.specs.declared.line.Line.TheVariants.{Ln, Attr, Set, Brcb, Ctl, Sgcb};
ghost use Rattle.cfg_writing.specs.Written.{number, domain as domain_of, objects as objects_of};
ghost use Rattle.cfg_writing.specs.Written.{in_order, with_members, heading, with_domains};
ghost use Rattle.cfg_writing.specs.Written.{text_of, written};
ghost use Rattle.cfg_writing.specs.Objects.{line_of};

use crate::spelling::{
    push_attribute, push_block, push_control, push_domain, push_end, push_groups, push_heading,
    push_node, push_set,
};
use std::alloc::{AllocError, Global};
use sv_base::{AttrDef, BlockDef, Config, CtlDef, LnDef, Octs, SetDef, SgDef};

/// What has a line of its own in a configuration.
#[derive(Clone, Copy)]
enum Object<'a> {
    Node(&'a LnDef),
    Attribute(&'a AttrDef),
    Set(&'a SetDef),
    Block(&'a BlockDef),
    Control(&'a CtlDef),
    Groups(&'a SgDef),
}

/// The number of its line.
fn number_of(object: &Object<'_>) -> u32
    ensures { result ≡ number (line_of object.now) }
{
    match object {
        Object::Node(node) => node.line,
        Object::Attribute(attr) => attr.line,
        Object::Set(set) => set.line,
        Object::Block(block) => block.line,
        Object::Control(control) => control.line,
        Object::Groups(groups) => groups.line,
    }
}

/// The name of its domain.
fn domain<'a>(object: &Object<'a>) -> &'a [u8]
    ensures { result.now ≡ domain_of (line_of object.now) }
{
    match object {
        Object::Node(node) => node.domain.as_slice(),
        Object::Attribute(attr) => attr.domain.as_slice(),
        Object::Set(set) => set.domain.as_slice(),
        Object::Block(block) => block.domain.as_slice(),
        Object::Control(control) => control.domain.as_slice(),
        Object::Groups(groups) => groups.domain.as_slice(),
    }
}

/// Adds its line, and those of a data set's members.
fn push_object(alloc: Global, out: &mut Vec<u8>, object: &Object<'_>) -> Result<(), AllocError>
    ensures { OnOk result (out.new.items ≡ out.old.items ++ text_of
        (with_members (line_of object.now))) }
{
    match object {
        Object::Node(node) => push_node(out, node),
        Object::Attribute(attr) => push_attribute(alloc, out, attr),
        Object::Set(set) => push_set(out, set),
        Object::Block(block) => push_block(out, block),
        Object::Control(control) => push_control(out, control),
        Object::Groups(groups) => push_groups(out, groups),
    }
}

/// Adds the line of a domain where it is another than before.
fn push_heading_of(out: &mut Vec<u8>, before: &[u8], name: &[u8]) -> Result<(), AllocError>
    ensures { OnOk result (out.new.items ≡ out.old.items ++ text_of (heading before.now name.now)) }
{
    if before == name {
        return Ok(());
    }
    push_domain(out, name)
}

/// Adds the lines of objects in this order, each domain's before its first.
fn push_all(alloc: Global, out: &mut Vec<u8>, objects: &[Object<'_>]) -> Result<(), AllocError>
    ensures { OnOk result (out.new.items ≡ out.old.items ++ text_of
        (with_domains [] (map line_of objects.now))) }
{
    let mut before = b"".as_slice();
    for object in objects {
        push_heading_of(out, before, domain(object))?;
        push_object(alloc, out, object)?;
        before = domain(object);
    }
    Ok(())
}

fn add_nodes<'a>(out: &mut Vec<Object<'a>>, nodes: &'a [LnDef]) -> Result<(), AllocError>
    ensures { OnOk result (map line_of out.new.items ≡ map line_of out.old.items
        ++ map Ln nodes.now) }
{
    for node in nodes {
        out.push(Object::Node(node))?;
    }
    Ok(())
}

fn add_attributes<'a>(out: &mut Vec<Object<'a>>, attrs: &'a [AttrDef]) -> Result<(), AllocError>
    ensures { OnOk result (map line_of out.new.items ≡ map line_of out.old.items
        ++ map Attr attrs.now) }
{
    for attr in attrs {
        out.push(Object::Attribute(attr))?;
    }
    Ok(())
}

fn add_sets<'a>(out: &mut Vec<Object<'a>>, sets: &'a [SetDef]) -> Result<(), AllocError>
    ensures { OnOk result (map line_of out.new.items ≡ map line_of out.old.items
        ++ map Set sets.now) }
{
    for set in sets {
        out.push(Object::Set(set))?;
    }
    Ok(())
}

fn add_blocks<'a>(out: &mut Vec<Object<'a>>, blocks: &'a [BlockDef]) -> Result<(), AllocError>
    ensures { OnOk result (map line_of out.new.items ≡ map line_of out.old.items
        ++ map Brcb blocks.now) }
{
    for block in blocks {
        out.push(Object::Block(block))?;
    }
    Ok(())
}

fn add_controls<'a>(out: &mut Vec<Object<'a>>, controls: &'a [CtlDef]) -> Result<(), AllocError>
    ensures { OnOk result (map line_of out.new.items ≡ map line_of out.old.items
        ++ map Ctl controls.now) }
{
    for control in controls {
        out.push(Object::Control(control))?;
    }
    Ok(())
}

fn add_groups<'a>(out: &mut Vec<Object<'a>>, groups: &'a [SgDef]) -> Result<(), AllocError>
    ensures { OnOk result (map line_of out.new.items ≡ map line_of out.old.items
        ++ map Sgcb groups.now) }
{
    for group in groups {
        out.push(Object::Groups(group))?;
    }
    Ok(())
}

fn objects<'a>(alloc: Global, config: &'a Config) -> Result<Vec<Object<'a>>, AllocError>
    ensures { IfOk result (λ v. map line_of v.items ≡ objects_of config.now) }
{
    let mut objects = Vec::new(alloc);
    add_nodes(&mut objects, config.nodes.as_slice())?;
    add_attributes(&mut objects, config.attrs.as_slice())?;
    add_sets(&mut objects, config.sets.as_slice())?;
    add_blocks(&mut objects, config.blocks.as_slice())?;
    add_controls(&mut objects, config.controls.as_slice())?;
    add_groups(&mut objects, config.groups.as_slice())?;
    Ok(objects)
}

/// The objects in the order of the numbers of their lines.
fn ordered_objects<'a>(alloc: Global, config: &'a Config) -> Result<Vec<Object<'a>>, AllocError>
    ensures { IfOk result (λ v. map line_of v.items ≡ in_order (objects_of config.now)) }
{
    let mut objects = objects(alloc, config)?;
    objects.sort_by_key(|object| number_of(object))?;
    Ok(objects)
}

/// The text that is written for a configuration: its lines in the order of their numbers, each in its shortest spelling,
/// without empty lines and remarks. A domain's `ld` stands before the first of its logical nodes. Fails when out of memory
/// alone.
#[tactic(auto, unfolding(crate::specs::Written::written))]
pub fn written_text(alloc: Global, config: &Config) -> Result<Octs, AllocError>
    ensures { IfOk result (λ o. o ≡ written config.now) }
{
    let objects = ordered_objects(alloc, config)?;
    let mut out = Vec::new(alloc);
    push_heading(
        &mut out,
        config.vendor.as_slice(),
        config.model.as_slice(),
        config.revision.as_slice(),
    )?;
    push_all(alloc, &mut out, &objects)?;
    push_end(&mut out)?;
    Ok(Octs::from_vec(out))
}
