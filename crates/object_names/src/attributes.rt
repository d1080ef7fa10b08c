//! The attributes of a configuration by their numbers: those of the lines, then the CF attributes of the controls, then the
//! SE twins of the SG attributes.

ghost use Rattle.std.specs.Prelude.{◌≡◌, ◌∷◌, ◌++◌, [], map, filter, flat_map, codes, OnOk};
ghost use Rattle.sv_base.specs.Parameters.{parameter_name, parameter_kind};
ghost use Rattle.bay_model.specs.Lookups.{reference_of};
ghost use Rattle.bay_model.specs.Generated.{selection, within};
ghost use Rattle.bay_model.specs.NamedLines.{is_setting as is_setting_line, path_item};
ghost use Rattle.name_leaves.specs.References.{attr_references};
ghost use Rattle.name_leaves.specs.Attributes.{attr_at, attr_rows, line_attr, twin_attr};
ghost use Rattle.name_leaves.specs.Attributes.{parameter_attr, control_attrs, line_flags, no_flags};
ghost use Rattle.name_leaves.specs.Attributes.{references_of, rows_of};

use crate::references::write_reference;
use bay_model::{AttrRow, Flags, is_setting};
use name_leaves::is_selected;
use octet_rows::Index;
use std::alloc::{AllocError, Global};
use sv_base::{AttrDef, Config, CtlDef, CtlParameter};

/// Attributes by their numbers: their references `LD/LN$FC$PATH`, and their rows.
#[derive(Drop)]
pub struct Attributes {
    pub references: Index,
    pub rows: Vec<AttrRow>,
    /// The memory in which a reference is made before it is added.
    text: Vec<u8>,
}

/// The trigger conditions of the attribute of a line.
fn flags_of(attr: &AttrDef) -> Flags
    ensures { result ≡ line_flags attr.now }
{
    Flags {
        dchg: attr.dchg,
        qchg: attr.qchg,
        dupd: attr.dupd,
    }
}

/// Adds the attribute of a line, under a functional constraint.
fn push_at(out: &mut Attributes, attr: &AttrDef, fc: &[u8]) -> Result<(), AllocError>
    ensures references { OnOk result (out.new.references ≡ out.old.references ++ references_of
        (attr_at attr.now fc.now ∷ [])) }
    ensures rows { OnOk result (out.new.rows.items ≡ out.old.rows.items ++ rows_of
        (attr_at attr.now fc.now ∷ [])) }
{
    let (domain, ln, path) = (&attr.domain, &attr.ln, &attr.path);
    let text = &mut out.text;
    write_reference(text, domain.as_slice(), ln.as_slice(), fc, path.as_slice())?;
    out.references.push(&out.text)?;
    out.rows.push(AttrRow {
        kind: attr.kind.share()?,
        flags: flags_of(attr),
    })?;
    Ok(())
}

fn push_lines(out: &mut Attributes, attrs: &[AttrDef]) -> Result<(), AllocError>
    ensures references { OnOk result (out.new.references ≡ out.old.references ++ references_of
        (map line_attr attrs.now)) }
    ensures rows { OnOk result (out.new.rows.items ≡ out.old.rows.items ++ rows_of
        (map line_attr attrs.now)) }
{
    for attr in attrs {
        push_at(out, attr, attr.fc.as_slice())?;
    }
    Ok(())
}

/// Makes the text the reference of a CF attribute of a control.
fn write_parameter(text: &mut Vec<u8>, control: &CtlDef, name: &[u8]) -> Result<(), AllocError>
    ensures { OnOk result (text.new.items ≡ reference_of control.now.domain
        (within (path_item control.now.ln (codes "CF") control.now.path) name.now)) }
{
    let (domain, ln, path) = (&control.domain, &control.ln, &control.path);
    write_reference(
        text,
        domain.as_slice(),
        ln.as_slice(),
        b"CF",
        path.as_slice(),
    )?;
    text.push(b'$')?;
    text.extend_from_slice(name)?;
    Ok(())
}

/// Adds a CF attribute of a control, which no change triggers a report by.
fn push_parameter(
    out: &mut Attributes,
    control: &CtlDef,
    parameter: CtlParameter,
) -> Result<(), AllocError>
    ensures references { OnOk result (out.new.references ≡ out.old.references
        ++ reference_of control.now.domain
        (within (path_item control.now.ln (codes "CF") control.now.path)
        (parameter_name parameter)) ∷ []) }
    ensures rows { OnOk result (out.new.rows.items ≡ out.old.rows.items
        ++ record { kind = parameter_kind parameter; flags = no_flags } ∷ []) }
{
    write_parameter(&mut out.text, control, parameter.name())?;
    out.references.push(&out.text)?;
    out.rows.push(AttrRow {
        kind: parameter.kind(),
        flags: Flags {
            dchg: false,
            qchg: false,
            dupd: false,
        },
    })?;
    Ok(())
}

/// Adds the CF attributes that a control has besides ctlModel.
fn push_selection(out: &mut Attributes, control: &CtlDef) -> Result<(), AllocError>
    ensures references { OnOk result (out.new.references ≡ out.old.references ++ references_of
        (map (parameter_attr control.now) (selection control.now))) }
    ensures rows { OnOk result (out.new.rows.items ≡ out.old.rows.items ++ rows_of
        (map (parameter_attr control.now) (selection control.now))) }
{
    push_parameter(out, control, CtlParameter::SboTimeout)?;
    push_parameter(out, control, CtlParameter::SboClass)?;
    Ok(())
}

fn push_parameters(out: &mut Attributes, control: &CtlDef) -> Result<(), AllocError>
    ensures references { OnOk result (out.new.references ≡ out.old.references ++ references_of
        (control_attrs control.now)) }
    ensures rows { OnOk result (out.new.rows.items ≡ out.old.rows.items ++ rows_of
        (control_attrs control.now)) }
{
    push_parameter(out, control, CtlParameter::CtlModel)?;
    if is_selected(control) {
        push_selection(out, control)?;
    }
    Ok(())
}

fn push_generated(out: &mut Attributes, controls: &[CtlDef]) -> Result<(), AllocError>
    ensures references { OnOk result (out.new.references ≡ out.old.references ++ references_of
        (flat_map control_attrs controls.now)) }
    ensures rows { OnOk result (out.new.rows.items ≡ out.old.rows.items ++ rows_of
        (flat_map control_attrs controls.now)) }
{
    for control in controls {
        push_parameters(out, control)?;
    }
    Ok(())
}

fn push_twin(out: &mut Attributes, attr: &AttrDef) -> Result<(), AllocError>
    ensures references { OnOk result (out.new.references ≡ out.old.references ++ references_of
        (map twin_attr (filter is_setting_line (attr.now ∷ [])))) }
    ensures rows { OnOk result (out.new.rows.items ≡ out.old.rows.items ++ rows_of
        (map twin_attr (filter is_setting_line (attr.now ∷ [])))) }
{
    if is_setting(attr) {
        push_at(out, attr, b"SE")?;
    }
    Ok(())
}

fn push_twins(out: &mut Attributes, attrs: &[AttrDef]) -> Result<(), AllocError>
    ensures references { OnOk result (out.new.references ≡ out.old.references ++ references_of
        (map twin_attr (filter is_setting_line attrs.now))) }
    ensures rows { OnOk result (out.new.rows.items ≡ out.old.rows.items ++ rows_of
        (map twin_attr (filter is_setting_line attrs.now))) }
{
    for attr in attrs {
        push_twin(out, attr)?;
    }
    Ok(())
}

fn push_all(out: &mut Attributes, config: &Config) -> Result<(), AllocError>
    ensures references { OnOk result (out.new.references ≡ out.old.references
        ++ attr_references config.now) }
    ensures rows { OnOk result (out.new.rows.items ≡ out.old.rows.items ++ attr_rows config.now) }
{
    push_lines(out, config.attrs.as_slice())?;
    push_generated(out, config.controls.as_slice())?;
    push_twins(out, config.attrs.as_slice())
}

impl Attributes {
    ghost use Rattle.std.specs.Prelude.{◌≡◌, IfOk};
    ghost use Rattle.name_leaves.specs.Attributes.{attr_rows};
    ghost use Rattle.name_leaves.specs.References.{attr_references};

    /// The attributes of a configuration.
    pub fn of(alloc: Global, config: &Config) -> Result<Self, AllocError>
        ensures references { IfOk result (λ attrs. attrs.references ≡ attr_references config.now) }
        ensures rows { IfOk result (λ attrs. attrs.rows.items ≡ attr_rows config.now) }
    {
        let count = config.attrs.len();
        let rows = Vec::with_capacity(alloc, count)?;
        let mut attrs = Attributes {
            references: Index::with_capacity(alloc, count, count.saturating_mul(32))?,
            rows,
            text: Vec::new(alloc),
        };
        if let Err(error) = push_all(&mut attrs, config) {
            drop(attrs);
            return Err(error);
        }
        attrs.references.shrink_to_fit();
        Ok(attrs)
    }
}
