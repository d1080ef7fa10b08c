//! What the lines of a configuration name.

ghost use Rattle.std.specs.Prelude.{◌≡◌, ◌∷◌, ◌++◌, [], codes, map, IfOk, OnOk};
ghost use Rattle.sv_base.specs.Parameters.{parameter_name, parameter_kind};
ghost use Rattle.sv_base.specs.CtlServices.{service_name, service_of};
ghost use Rattle.bay_model.specs.Generated.{within, end_named, structure_named, block_names};
ghost use Rattle.bay_model.specs.Generated.{setting_named, setting_names, part_named};
ghost use Rattle.bay_model.specs.Generated.{command_names};
ghost use Rattle.bay_model.specs.Generated.{sbo_names, sbow_names, cancel_names, control_names};
ghost use Rattle.bay_model.specs.Generated.{parameters, selection, parameter_names};
ghost use Rattle.bay_model.specs.Model.{attribute, withheld};
ghost use Rattle.name_leaves.specs.Seen.{role_seen};

use bay_model::{Comp, SettingComp};
use name_leaves::{What, is_selected, joined, plus};
use std::alloc::{AllocError, Global};
use std::marker::Model;
use sv_base::{Call, CallPart, CtlDef, CtlParameter, CtlService, Octs, Parts, TypeOf, ctl_models};

#[derive(Drop)]
enum ItemOctets<'a> {
    Lent(&'a [u8]),
    Made(Octs),
}

/// An item: lent, as by the reference of an attribute, or made for its name.
#[derive(Drop)]
pub struct Item<'a> {
    octets: ItemOctets<'a>,
}

impl<'a> Model for Item<'a> {
    ghost use Rattle.std.specs.Prelude.{List, ℕ};
    ghost use Rattle.object_names.specs.Items.{item_octets};

    ghost Value = { List ℕ };

    ghost view = { λ item. item_octets item.octets };
}

impl<'a> Item<'a> {
    ghost use Rattle.std.specs.Prelude.{◌≡◌};

    pub fn lent(octets: &'a [u8]) -> Self
        ensures { result ≡ octets.now }
    {
        Item {
            octets: ItemOctets::Lent(octets),
        }
    }

    pub fn made(octets: Octs) -> Self
        ensures { result ≡ octets }
    {
        Item {
            octets: ItemOctets::Made(octets),
        }
    }

    /// The octets.
    pub fn as_slice(&self) -> &[u8]
        ensures { result.now ≡ self.now }
    {
        match &self.octets {
            ItemOctets::Lent(octets) => octets,
            ItemOctets::Made(octets) => octets.as_slice(),
        }
    }
}

/// An item that is named, what stands there, and its type where it has no parts.
#[derive(Drop)]
pub struct Named<'a> {
    pub item: Item<'a>,
    pub what: What,
    pub kind: TypeOf,
}

impl<'a> Model for Named<'a> {
    ghost use Rattle.bay_model.specs.Generated.{Named};

    ghost Value = { Named };

    ghost use Rattle.std.specs.Coded.{codes};
    ghost use Rattle.sv_base.specs.Types.{fields_code};

    ghost coded = { Prim.hlevel (codes, fields_code) };

    ghost use Rattle.name_leaves.specs.Seen.{role_seen};

    ghost view = { λ n. record { item = n.item; role = role_seen n.what; kind = n.kind } };
}

/// Adds `ITEM$NAME`.
fn push_within(
    alloc: Global,
    out: &mut Vec<Named<'_>>,
    item: &[u8],
    name: &[u8],
    what: What,
    kind: TypeOf,
) -> Result<(), AllocError>
    ensures { OnOk result (out.new.items ≡ out.old.items
        ++ record { item = within item.now name.now; role = role_seen what; kind = kind } ∷ []) }
{
    let item = Item::made(Octs::from_vec(joined(alloc, item, b'$', name)?));
    out.push(Named { item, what, kind })?;
    Ok(())
}

/// Adds the components of report block `number` at `LN$BR$NAME`.
pub fn push_block(
    alloc: Global,
    out: &mut Vec<Named<'_>>,
    number: u32,
    item: &[u8],
) -> Result<(), AllocError>
    ensures { OnOk result (out.new.items ≡ out.old.items ++ block_names number item.now) }
{
    for comp in &Comp::ALL {
        push_within(
            alloc,
            out,
            item,
            comp.name(),
            What::Component(number, *comp),
            comp.kind(),
        )?;
    }
    Ok(())
}

fn push_setting(
    alloc: Global,
    out: &mut Vec<Named<'_>>,
    domain: u32,
    comp: SettingComp,
) -> Result<(), AllocError>
    ensures { OnOk result (out.new.items ≡ out.old.items ++ setting_named domain comp ∷ []) }
{
    push_within(
        alloc,
        out,
        b"LLN0$SP$SGCB",
        comp.name(),
        What::Setting(domain, comp),
        comp.kind(),
    )
}

fn push_comps(
    alloc: Global,
    out: &mut Vec<Named<'_>>,
    domain: u32,
    comps: &[SettingComp],
) -> Result<(), AllocError>
    ensures { OnOk result (out.new.items ≡ out.old.items ++ map (setting_named domain) comps.now) }
{
    for comp in comps {
        push_setting(alloc, out, domain, *comp)?;
    }
    Ok(())
}

/// Adds the components of the setting group block of a domain.
pub fn push_settings(alloc: Global, out: &mut Vec<Named<'_>>, domain: u32) -> Result<(), AllocError>
    ensures { OnOk result (out.new.items ≡ out.old.items ++ setting_names domain) }
{
    push_comps(alloc, out, domain, &SettingComp::ALL)
}

/// A structure.
pub fn structure<'a>(alloc: Global, item: Item<'a>, what: What) -> Result<Named<'a>, AllocError>
    ensures { IfOk result (λ n. n ≡ structure_named item.entry (role_seen what)) }
{
    Ok(Named {
        item,
        what,
        kind: TypeOf::Struct(Parts::from_vec(alloc, Vec::new(alloc))?),
    })
}

/// Adds a part of a command at `LN$CO$DO$CALL`, whose ctlVal is of the type.
fn push_part(
    alloc: Global,
    out: &mut Vec<Named<'_>>,
    kind: &TypeOf,
    item: &[u8],
    part: CallPart,
) -> Result<(), AllocError>
    ensures { OnOk result (out.new.items ≡ out.old.items
        ++ part_named kind.now item.now part ∷ []) }
{
    let own = part.kind(kind)?;
    push_within(alloc, out, item, part.name(), What::Withheld, own)
}

fn push_parts(
    alloc: Global,
    out: &mut Vec<Named<'_>>,
    kind: &TypeOf,
    item: &[u8],
    parts: &[CallPart],
) -> Result<(), AllocError>
    ensures { OnOk result (out.new.items ≡ out.old.items
        ++ map (part_named kind.now item.now) parts.now) }
{
    for part in parts {
        push_part(alloc, out, kind, item, *part)?;
    }
    Ok(())
}

/// Adds a command of control `number` at `LN$CO$DO$CALL`, whose ctlVal is of the type.
fn push_command(
    alloc: Global,
    out: &mut Vec<Named<'_>>,
    number: u32,
    kind: &TypeOf,
    item: &[u8],
    call: Call,
) -> Result<(), AllocError>
    ensures { OnOk result (out.new.items ≡ out.old.items
        ++ command_names number kind.now item.now call) }
{
    let made = Item::made(Octs::from_vec(Vec::from_slice(alloc, item)?));
    out.push(structure(alloc, made, What::Calling(number, call))?)?;
    match call {
        Call::Cancel => push_parts(alloc, out, kind, item, &CallPart::ALL[..6]),
        Call::Select | Call::Operate => push_parts(alloc, out, kind, item, &CallPart::ALL),
    }
}

/// Adds SBO of a control with SBO and normal security, at `LN$CO$DO`.
fn push_sbo(
    alloc: Global,
    out: &mut Vec<Named<'_>>,
    number: u32,
    control: &CtlDef,
    item: &[u8],
) -> Result<(), AllocError>
    ensures { OnOk result (out.new.items ≡ out.old.items ++ sbo_names number control.now item.now) }
{
    if control.model == ctl_models::SBO_NORMAL {
        push_within(
            alloc,
            out,
            item,
            CtlService::Sbo.name(),
            What::Selecting(number),
            TypeOf::Text(129),
        )?;
    }
    Ok(())
}

/// Adds a command of control `number` at `LN$CO$DO`.
fn push_call(
    alloc: Global,
    out: &mut Vec<Named<'_>>,
    number: u32,
    control: &CtlDef,
    item: &[u8],
    call: Call,
) -> Result<(), AllocError>
    ensures { OnOk result (out.new.items ≡ out.old.items ++ command_names number control.now.kind
        (within item.now (service_name (service_of call))) call) }
{
    let item = joined(alloc, item, b'$', call.service().name())?;
    push_command(alloc, out, number, &control.kind, &item, call)
}

/// Adds SBOw of a control with SBO and enhanced security, at `LN$CO$DO`.
fn push_sbow(
    alloc: Global,
    out: &mut Vec<Named<'_>>,
    number: u32,
    control: &CtlDef,
    item: &[u8],
) -> Result<(), AllocError>
    ensures { OnOk result (out.new.items ≡ out.old.items
        ++ sbow_names number control.now item.now) }
{
    if control.model == ctl_models::SBO_ENHANCED {
        push_call(alloc, out, number, control, item, Call::Select)?;
    }
    Ok(())
}

/// Adds Cancel of a control that is selected before it operates, at `LN$CO$DO`.
fn push_cancel(
    alloc: Global,
    out: &mut Vec<Named<'_>>,
    number: u32,
    control: &CtlDef,
    item: &[u8],
) -> Result<(), AllocError>
    ensures { OnOk result (out.new.items ≡ out.old.items
        ++ cancel_names number control.now item.now) }
{
    if is_selected(control) {
        push_call(alloc, out, number, control, item, Call::Cancel)?;
    }
    Ok(())
}

/// Adds what control `number` has at `LN$CO$DO`.
pub fn push_control(
    alloc: Global,
    out: &mut Vec<Named<'_>>,
    number: u32,
    control: &CtlDef,
    item: &[u8],
) -> Result<(), AllocError>
    ensures { OnOk result (out.new.items ≡ out.old.items
        ++ control_names number control.now item.now) }
{
    push_sbo(alloc, out, number, control, item)?;
    push_sbow(alloc, out, number, control, item)?;
    push_call(alloc, out, number, control, item, Call::Operate)?;
    push_cancel(alloc, out, number, control, item)?;
    Ok(())
}

/// Adds the CF attribute of this number of a control, at `LN$CF$DO`.
fn push_parameter(
    alloc: Global,
    out: &mut Vec<Named<'_>>,
    number: u32,
    item: &[u8],
    parameter: CtlParameter,
) -> Result<(), AllocError>
    ensures { OnOk result (out.new.items ≡ out.old.items ++ end_named
        (within item.now (parameter_name parameter)) (attribute number)
        (parameter_kind parameter) ∷ []) }
{
    let what = What::Attribute(number);
    push_within(alloc, out, item, parameter.name(), what, parameter.kind())
}

fn push_selection(
    alloc: Global,
    out: &mut Vec<Named<'_>>,
    first: u32,
    control: &CtlDef,
    item: &[u8],
) -> Result<(), AllocError>
    ensures { OnOk result (out.new.items ≡ out.old.items ++ parameter_names first item.now
        (selection control.now)) }
{
    let next = plus(first, 1)?;
    push_parameter(alloc, out, first, item, CtlParameter::SboTimeout)?;
    push_parameter(alloc, out, next, item, CtlParameter::SboClass)?;
    Ok(())
}

/// Adds the CF attributes of a control at `LN$CF$DO`, the first being attribute `first`.
pub fn push_parameters(
    alloc: Global,
    out: &mut Vec<Named<'_>>,
    first: u32,
    control: &CtlDef,
    item: &[u8],
) -> Result<(), AllocError>
    ensures { OnOk result (out.new.items ≡ out.old.items ++ parameter_names first item.now
        (parameters control.now)) }
{
    push_parameter(alloc, out, first, item, CtlParameter::CtlModel)?;
    if is_selected(control) {
        push_selection(alloc, out, plus(first, 1)?, control, item)?;
    }
    Ok(())
}
