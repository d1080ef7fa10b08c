//! The lines of a configuration with the items that each names, in the order of their numbers.

ghost use Rattle.std.specs.Prelude.{◌≡◌, ◌∷◌, ◌++◌, ◌+◌, [], map, codes, length, IfOk, OnOk, ℕ};
ghost use Rattle.std.specs.Prelude.{Some, slice_get, true, List, position, unwrap_or};
ghost use Rattle.std.specs.Prelude.{flat_map, if◌then◌else◌};
ghost use Rattle.std.specs.List.{list_any};
ghost use Rattle.std.specs.Str.{bytes_eq};
ghost use Rattle.bay_model.specs.Configured.{domains_after, with_domain};
ghost use Rattle.bay_model.specs.Generated.{block_names, parameters, parameter_names};
ghost use Rattle.bay_model.specs.Generated.{control_names, end_named};
ghost use Rattle.bay_model.specs.NamedLines.{attribute_line, attribute_lines, block_line};
ghost use Rattle.bay_model.specs.NamedLines.{block_lines, control_line, control_lines, node_line};
ghost use Rattle.bay_model.specs.NamedLines.{group_line, attribute_names, domains as domains_of};
ghost use Rattle.bay_model.specs.NamedLines.{domain_number, lines as lines_of, in_order};
ghost use Rattle.bay_model.specs.NamedLines.{path_item, is_setting as is_setting_line};
ghost use Rattle.bay_model.specs.Model.{attribute};
ghost use Rattle.bay_model.specs.Lookups.{reference_of};
ghost use Rattle.object_names.specs.Items.{HasReference, AreReferenced};
ghost use Rattle.name_leaves.specs.References.{attr_references};

use crate::named::{
    Item, Named, push_block, push_control, push_parameters, push_settings, structure,
};
use bay_model::is_setting;
use name_leaves::{What, count, is_selected, item_at, plus};
use octet_rows::Index;
use std::alloc::{AllocError, Global};
use std::marker::Model;
use sv_base::{AttrDef, BlockDef, Config, CtlDef, Few, LnDef, Octs, SgDef};

/// A line, by its number, with the items of its domain that it names.
#[derive(Drop)]
pub struct Line<'a> {
    pub number: u32,
    pub domain: &'a [u8],
    pub names: Few<Named<'a>>,
}

impl<'a> Model for Line<'a> {
    ghost use Rattle.bay_model.specs.NamedLines.{Line};

    ghost Value = { Line };

    ghost use Rattle.std.specs.Coded.{codes};
    ghost use Rattle.sv_base.specs.Types.{fields_code};

    ghost coded = { Prim.hlevel (codes, fields_code) };

    ghost view = { λ l. record { line = l.number; domain = l.domain.now; names = l.names } };
}

/// Adds a line with what it names.
fn push_line<'a>(
    out: &mut Vec<Line<'a>>,
    number: u32,
    domain: &'a [u8],
    names: Few<Named<'a>>,
) -> Result<(), AllocError>
    ensures { OnOk result (out.new.items ≡ out.old.items ++ record {
      line = number;
      domain = domain.now;
      names = names.entry;
    } ∷ []) }
{
    out.push(Line {
        number,
        domain,
        names,
    })?;
    Ok(())
}

fn push_node<'a>(alloc: Global, out: &mut Vec<Line<'a>>, node: &'a LnDef) -> Result<(), AllocError>
    ensures { OnOk result (out.new.items ≡ out.old.items ++ node_line node.now ∷ []) }
{
    let named = structure(alloc, Item::lent(node.ln.as_slice()), What::Structure)?;
    push_line(out, node.line, node.domain.as_slice(), Few::one(named))
}

/// The item of the reference of an attribute of a domain, `LD/LN$FC$PATH`.
fn item_of<'a>(references: &'a Index, number: u32, domain: &[u8]) -> &'a [u8]
    ensures { (item : List ℕ)
        → slice_get references.now number ≡ Some (reference_of domain.now item)
        → result.now ≡ item }
{
    let Some(reference) = references.get(number as usize) else {
        return &[];
    };
    if reference.len() <= domain.len() {
        return &[];
    }
    &reference[domain.len() + 1..]
}

/// The attribute of a line, under the functional constraint of its reference.
fn end_at<'a>(references: &'a Index, attr: &AttrDef, number: u32) -> Result<Named<'a>, AllocError>
    ensures { IfOk result (λ n. (fc : List ℕ) → HasReference references.now number attr.now fc
        → n ≡ end_named (path_item attr.now.ln fc attr.now.path) (attribute number) attr.now.kind) }
{
    let item = item_of(references, number, attr.domain.as_slice());
    Ok(Named {
        item: Item::lent(item),
        what: What::Attribute(number),
        kind: attr.kind.share()?,
    })
}

fn attr_names<'a>(
    alloc: Global,
    references: &'a Index,
    attr: &AttrDef,
    number: u32,
    twin: u32,
) -> Result<Few<Named<'a>>, AllocError>
    requires own { HasReference references.now number attr.now attr.now.fc }
    requires twin { is_setting_line attr.now ≡ true
        → HasReference references.now twin attr.now (codes "SE") }
    ensures { IfOk result (λ names. names ≡ attribute_names number twin attr.now) }
{
    let mut names = Few::one(end_at(references, attr, number)?);
    if is_setting(attr) {
        names.push(alloc, end_at(references, attr, twin)?)?;
    }
    Ok(names)
}

fn push_attr<'a>(
    alloc: Global,
    out: &mut Vec<Line<'a>>,
    references: &'a Index,
    attr: &'a AttrDef,
    number: u32,
    twin: u32,
) -> Result<(), AllocError>
    requires own { HasReference references.now number attr.now attr.now.fc }
    requires twin { is_setting_line attr.now ≡ true
        → HasReference references.now twin attr.now (codes "SE") }
    ensures { OnOk result (out.new.items ≡ out.old.items
        ++ attribute_line number twin attr.now ∷ []) }
{
    let names = attr_names(alloc, references, attr, number, twin)?;
    push_line(out, attr.line, attr.domain.as_slice(), names)
}

fn push_block_names(
    alloc: Global,
    out: &mut Vec<Named<'_>>,
    block: &BlockDef,
    number: u32,
) -> Result<(), AllocError>
    ensures { OnOk result (out.new.items ≡ out.old.items ++ block_names number
        (path_item block.now.ln (codes "BR") block.now.name)) }
{
    let item = item_at(alloc, block.ln.as_slice(), b"BR", block.name.as_slice())?;
    push_block(alloc, out, number, &item)
}

fn push_block_line<'a>(
    alloc: Global,
    out: &mut Vec<Line<'a>>,
    block: &'a BlockDef,
    number: u32,
) -> Result<(), AllocError>
    ensures { OnOk result (out.new.items ≡ out.old.items ++ block_line number block.now ∷ []) }
{
    let mut names = Vec::new(alloc);
    push_block_names(alloc, &mut names, block, number)?;
    push_line(out, block.line, block.domain.as_slice(), Few::many(names))?;
    Ok(())
}

fn push_group<'a>(
    alloc: Global,
    out: &mut Vec<Line<'a>>,
    group: &'a SgDef,
    domain_number: u32,
) -> Result<(), AllocError>
    ensures { OnOk result (out.new.items ≡ out.old.items
        ++ group_line domain_number group.now ∷ []) }
{
    let mut names = Vec::new(alloc);
    push_settings(alloc, &mut names, domain_number)?;
    push_line(out, group.line, group.domain.as_slice(), Few::many(names))
}

fn push_control_names(
    alloc: Global,
    out: &mut Vec<Named<'_>>,
    control: &CtlDef,
    number: u32,
) -> Result<(), AllocError>
    ensures { OnOk result (out.new.items ≡ out.old.items ++ control_names number control.now
        (path_item control.now.ln (codes "CO") control.now.path)) }
{
    let item = item_at(alloc, control.ln.as_slice(), b"CO", control.path.as_slice())?;
    push_control(alloc, out, number, control, &item)
}

fn push_parameter_names(
    alloc: Global,
    out: &mut Vec<Named<'_>>,
    control: &CtlDef,
    first: u32,
) -> Result<(), AllocError>
    ensures { OnOk result (out.new.items ≡ out.old.items ++ parameter_names first
        (path_item control.now.ln (codes "CF") control.now.path)
        (parameters control.now)) }
{
    let item = item_at(alloc, control.ln.as_slice(), b"CF", control.path.as_slice())?;
    push_parameters(alloc, out, first, control, &item)
}

fn push_control_line<'a>(
    alloc: Global,
    out: &mut Vec<Line<'a>>,
    control: &'a CtlDef,
    number: u32,
    first: u32,
) -> Result<(), AllocError>
    ensures { OnOk result (out.new.items ≡ out.old.items
        ++ control_line number first control.now ∷ []) }
{
    let mut names = Vec::new(alloc);
    push_control_names(alloc, &mut names, control, number)?;
    push_parameter_names(alloc, &mut names, control, first)?;
    push_line(
        out,
        control.line,
        control.domain.as_slice(),
        Few::many(names),
    )
}

fn push_nodes<'a>(
    alloc: Global,
    out: &mut Vec<Line<'a>>,
    nodes: &'a [LnDef],
) -> Result<(), AllocError>
    ensures { OnOk result (out.new.items ≡ out.old.items ++ map node_line nodes.now) }
{
    for node in nodes {
        push_node(alloc, out, node)?;
    }
    Ok(())
}

/// The number of the next twin.
fn next_twin(attr: &AttrDef, twin: u32) -> Result<u32, AllocError>
    ensures { IfOk result (λ next. next ≡ (if is_setting_line attr.now then twin + 1 else twin)) }
{
    if is_setting(attr) {
        return plus(twin, 1);
    }
    Ok(twin)
}

fn push_attrs<'a>(
    alloc: Global,
    out: &mut Vec<Line<'a>>,
    references: &'a Index,
    attrs: &'a [AttrDef],
    first_twin: u32,
) -> Result<(), AllocError>
    requires { AreReferenced references.now 0 first_twin attrs.now }
    ensures { OnOk result (out.new.items ≡ out.old.items
        ++ attribute_lines 0 first_twin attrs.now) }
{
    let mut number = 0;
    let mut twin = first_twin;
    for attr in attrs {
        push_attr(alloc, out, references, attr, number, twin)?;
        number = plus(number, 1)?;
        twin = next_twin(attr, twin)?;
    }
    Ok(())
}

fn push_blocks<'a>(
    alloc: Global,
    out: &mut Vec<Line<'a>>,
    blocks: &'a [BlockDef],
) -> Result<(), AllocError>
    ensures { OnOk result (out.new.items ≡ out.old.items ++ block_lines 0 blocks.now) }
{
    let mut number = 0;
    for block in blocks {
        push_block_line(alloc, out, block, number)?;
        number = plus(number, 1)?;
    }
    Ok(())
}

/// How many CF attributes a control has.
fn parameter_count(control: &CtlDef) -> u32
    ensures { result ≡ length (parameters control.now) }
{
    if is_selected(control) { 3 } else { 1 }
}

fn push_controls<'a>(
    alloc: Global,
    out: &mut Vec<Line<'a>>,
    controls: &'a [CtlDef],
    first: u32,
) -> Result<(), AllocError>
    ensures { OnOk result (out.new.items ≡ out.old.items ++ control_lines 0 first controls.now) }
{
    let mut number = 0;
    let mut attr = first;
    for control in controls {
        push_control_line(alloc, out, control, number, attr)?;
        number = plus(number, 1)?;
        attr = plus(attr, parameter_count(control))?;
    }
    Ok(())
}

/// The domains, in the order in which logical nodes first name them.
pub fn domains(alloc: Global, nodes: &[LnDef]) -> Result<Vec<Octs>, AllocError>
    ensures { IfOk result (λ v. v.items ≡ domains_after [] nodes.now) }
{
    let mut domains = Vec::new(alloc);
    for node in nodes {
        push_domain(alloc, &mut domains, node.domain.as_slice())?;
    }
    Ok(domains)
}

fn push_domain(alloc: Global, domains: &mut Vec<Octs>, domain: &[u8]) -> Result<(), AllocError>
    ensures { OnOk result (domains.new.items ≡ with_domain domains.old.items domain.now) }
{
    if !has_domain(domains, domain) {
        domains.push(Octs::from_vec(Vec::from_slice(alloc, domain)?))?;
    }
    Ok(())
}

fn has_domain(domains: &[Octs], domain: &[u8]) -> bool
    ensures { result ≡ list_any (bytes_eq domain.now) domains.now }
{
    for other in domains {
        if domain == other.as_slice() {
            return true;
        }
    }
    false
}

fn push_groups<'a>(
    alloc: Global,
    out: &mut Vec<Line<'a>>,
    groups: &'a [SgDef],
    domains: &Index,
) -> Result<(), AllocError>
    ensures { OnOk result (out.new.items ≡ out.old.items
        ++ map (λ g. group_line (unwrap_or (position (bytes_eq g.domain) domains.now) 0)
        g) groups.now) }
{
    for group in groups {
        let number = domains.place_of(group.domain.as_slice()).unwrap_or(0);
        push_group(alloc, out, group, number)?;
    }
    Ok(())
}

/// How many CF attributes the controls have.
fn generated_count(controls: &[CtlDef]) -> Result<u32, AllocError>
    ensures { IfOk result (λ n. n ≡ length (flat_map parameters controls.now)) }
{
    let mut sum = 0;
    for control in controls {
        sum = plus(sum, parameter_count(control))?;
    }
    Ok(sum)
}

fn push_all<'a>(
    alloc: Global,
    out: &mut Vec<Line<'a>>,
    config: &'a Config,
    domains: &Index,
    references: &'a Index,
) -> Result<(), AllocError>
    requires domains { domains.now ≡ domains_of config.now }
    requires references { references.now ≡ attr_references config.now }
    ensures { OnOk result (out.new.items ≡ out.old.items ++ lines_of config.now) }
{
    let attr_count = count(config.attrs.len())?;
    let first_twin = plus(attr_count, generated_count(config.controls.as_slice())?)?;
    push_nodes(alloc, out, config.nodes.as_slice())?;
    push_attrs(alloc, out, references, config.attrs.as_slice(), first_twin)?;
    push_blocks(alloc, out, config.blocks.as_slice())?;
    push_controls(alloc, out, config.controls.as_slice(), attr_count)?;
    push_groups(alloc, out, config.groups.as_slice(), domains)?;
    Ok(())
}

/// How many lines name something.
fn line_count(config: &Config) -> usize {
    config
        .nodes
        .len()
        .saturating_add(config.attrs.len())
        .saturating_add(config.blocks.len())
        .saturating_add(config.controls.len())
        .saturating_add(config.groups.len())
}

/// The lines in the order of their numbers. The references of the attributes lend their items.
pub fn ordered_lines<'a>(
    alloc: Global,
    config: &'a Config,
    domains: &Index,
    references: &'a Index,
) -> Result<Vec<Line<'a>>, AllocError>
    requires domains { domains.now ≡ domains_of config.now }
    requires references { references.now ≡ attr_references config.now }
    ensures { IfOk result (λ v. v.items ≡ in_order (lines_of config.now)) }
{
    let mut lines = Vec::with_capacity(alloc, line_count(config))?;
    push_all(alloc, &mut lines, config, domains, references)?;
    lines.sort_by_key(|line| line.number)?;
    Ok(lines)
}
