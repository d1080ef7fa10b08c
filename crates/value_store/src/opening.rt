//! The values that a configuration gives its attributes.

ghost use Rattle.std.specs.Prelude.{◌≡◌, ◌≤◌, ◌++◌, ◌∷◌, [], true, map, IfOk, OnOk};
ghost use Rattle.std.specs.Prelude.{flat_map};
ghost use Rattle.std.specs.List.{filter, All};
ghost use Rattle.sv_base.specs.declared.config.CtlDef.{CtlDef};
ghost use Rattle.bay_model.specs.Generated.{selection};
ghost use Rattle.bay_model.specs.Configured.{groups_defined};
ghost use Rattle.sv_base.specs.Kinds.{kind_of, is_kind, is_in_range};
ghost use Rattle.bay_model.specs.NamedLines.{is_setting as is_setting_line};
ghost use Rattle.bay_rooms.specs.Slots.{IsSettable};
ghost use Rattle.value_store.specs.Opened.{HasValue, is_written, place_in, stored_line};
ghost use Rattle.value_store.specs.Opened.{stored_parameter, stored_control, stored_twin};
ghost use Rattle.value_store.specs.Stored.{stored};

use crate::store::{Cell, Store};
use bay_model::is_setting;
use bay_rooms::Slot;
use std::alloc::{AllocError, Global};
use sv_base::{AttrDef, Config, CtlDef, CtlParameter, SgDef, TypeOf, Value, ctl_models};

/// Adds an attribute.
fn push(
    alloc: Global,
    cells: &mut Vec<Cell>,
    kind: &TypeOf,
    value: &Value,
    is_writable: bool,
) -> Result<(), AllocError>
    requires plain { IsSettable kind.now }
    requires kind { is_kind (kind_of kind.now) value.now ≡ true }
    requires range { is_in_range (kind_of kind.now) value.now ≡ true }
    ensures { OnOk result (map stored cells.new.items ≡ map stored cells.old.items
        ++ record {
          held = record { value = value.now; kind = kind_of kind.now };
          is_writable = is_writable;
        } ∷ []) }
{
    let slot = Slot::new(alloc, kind, value)?;
    cells.push(Cell { slot, is_writable })?;
    Ok(())
}

/// Whether clients may write an attribute, by its functional constraint (IEC 61850-7-2): under CF, DC, SP and SV.
fn is_writable(attr: &AttrDef) -> bool
    ensures { result ≡ is_written attr.now }
{
    let fc = attr.fc.as_slice();
    fc == b"CF".as_slice()
        || fc == b"DC".as_slice()
        || fc == b"SP".as_slice()
        || fc == b"SV".as_slice()
}

/// The setting group of a domain that is active at first, and 0 where it has none.
fn active_of(groups: &[SgDef], domain: &[u8]) -> u8
    ensures { result ≡ (groups_defined groups.now domain.now).active }
{
    match groups {
        [] => 0,
        [first, rest @ ..] => {
            if domain == first.domain.as_slice() {
                first.active
            } else {
                active_of(rest, domain)
            }
        }
    }
}

/// The place of an attribute's first value among its configured ones.
fn place_of(config: &Config, attr: &AttrDef) -> usize
    ensures { result ≡ place_in config.now attr.now }
{
    if is_setting(attr) {
        usize::from(active_of(config.groups.as_slice(), attr.domain.as_slice())).saturating_sub(1)
    } else {
        0
    }
}

/// Adds the attribute of a line, with the value at a place.
fn push_at(
    alloc: Global,
    cells: &mut Vec<Cell>,
    attr: &AttrDef,
    place: usize,
    is_writable: bool,
) -> Result<(), AllocError>
    requires { HasValue attr.now place }
    ensures { OnOk result (map stored cells.new.items ≡ map stored cells.old.items
        ++ stored_line attr.now place is_writable ∷ []) }
{
    match attr.values.get(place) {
        Some(value) => push(alloc, cells, &attr.kind, value, is_writable),
        None => Err(AllocError),
    }
}

fn push_lines(
    alloc: Global,
    cells: &mut Vec<Cell>,
    config: &Config,
    attrs: &[AttrDef],
) -> Result<(), AllocError>
    requires { All (λ a. HasValue a (place_in config.now a)) attrs.now }
    ensures { OnOk result (map stored cells.new.items ≡ map stored cells.old.items ++ map
        (λ a. stored_line a (place_in config.now a) (is_written a)) attrs.now) }
{
    for attr in attrs {
        push_at(
            alloc,
            cells,
            attr,
            place_of(config, attr),
            is_writable(attr),
        )?;
    }
    Ok(())
}

/// Adds the CF attributes that a control has besides ctlModel (IEC 61850-7-2, sboTimeout and sboClass).
fn push_selection(alloc: Global, cells: &mut Vec<Cell>, control: &CtlDef) -> Result<(), AllocError>
    requires { control.now.class ≤ 1 }
    ensures { OnOk result (map stored cells.new.items ≡ map stored cells.old.items
        ++ map stored_parameter (selection control.now)) }
{
    let timeout = Value::Uint(u64::from(control.timeout));
    push(
        alloc,
        cells,
        &CtlParameter::SboTimeout.kind(),
        &timeout,
        false,
    )?;
    let class = Value::Int(i64::from(control.class));
    push(alloc, cells, &CtlParameter::SboClass.kind(), &class, false)?;
    Ok(())
}

/// Adds the CF attributes of a control.
fn push_parameters(alloc: Global, cells: &mut Vec<Cell>, control: &CtlDef) -> Result<(), AllocError>
    requires { (control.now.model ≤ 4) × (control.now.class ≤ 1) }
    ensures { OnOk result (map stored cells.new.items ≡ map stored cells.old.items
        ++ stored_control control.now) }
{
    let model = Value::Int(i64::from(control.model));
    push(alloc, cells, &CtlParameter::CtlModel.kind(), &model, false)?;
    if control.model == ctl_models::SBO_NORMAL || control.model == ctl_models::SBO_ENHANCED {
        push_selection(alloc, cells, control)?;
    }
    Ok(())
}

fn push_generated(
    alloc: Global,
    cells: &mut Vec<Cell>,
    controls: &[CtlDef],
) -> Result<(), AllocError>
    requires { All (λ (k : CtlDef). (k.model ≤ 4) × (k.class ≤ 1)) controls.now }
    ensures { OnOk result (map stored cells.new.items ≡ map stored cells.old.items
        ++ flat_map stored_control controls.now) }
{
    for control in controls {
        push_parameters(alloc, cells, control)?;
    }
    Ok(())
}

fn push_twin(alloc: Global, cells: &mut Vec<Cell>, attr: &AttrDef) -> Result<(), AllocError>
    requires { HasValue attr.now 0 }
    ensures { OnOk result (map stored cells.new.items ≡ map stored cells.old.items
        ++ map stored_twin (filter is_setting_line (attr.now ∷ []))) }
{
    if is_setting(attr) {
        push_at(alloc, cells, attr, 0, false)?;
    }
    Ok(())
}

fn push_twins(alloc: Global, cells: &mut Vec<Cell>, attrs: &[AttrDef]) -> Result<(), AllocError>
    requires { All (λ a. HasValue a 0) attrs.now }
    ensures { OnOk result (map stored cells.new.items ≡ map stored cells.old.items
        ++ map stored_twin (filter is_setting_line attrs.now)) }
{
    for attr in attrs {
        push_twin(alloc, cells, attr)?;
    }
    Ok(())
}

impl Store {
    ghost use Rattle.std.specs.Prelude.{◌≡◌, map, IfOk};
    ghost use Rattle.value_store.specs.Opened.{IsStorable, opened};
    ghost use Rattle.value_store.specs.Stored.{stored};

    /// The configured values. Each attribute has capacity for the largest value of its type.
    pub fn open(alloc: Global, config: &Config) -> Result<Store, AllocError>
        requires { IsStorable config.now }
        ensures { IfOk result (λ s. s ≡ opened config.now) }
    {
        let mut cells = Vec::with_capacity(alloc, config.attrs.len())?;
        push_lines(alloc, &mut cells, config, config.attrs.as_slice())?;
        push_generated(alloc, &mut cells, config.controls.as_slice())?;
        push_twins(alloc, &mut cells, config.attrs.as_slice())?;
        Ok(Store { cells })
    }
}
