//! Whether a step fits what a configuration has.

ghost use Rattle.std.specs.Prelude.{◌≡◌, ◌&&◌, option_map, slice_get};
ghost use Rattle.std.specs.List.{All, list_all};
ghost use Rattle.sv_base.specs.Seen.{row_of};
ghost use Rattle.sv_base.specs.Kinds.{kind_of};
ghost use Rattle.sv_base.specs.Kinds.{is_kind, is_in_range};
ghost use Rattle.bay_rooms.specs.Slots.{IsSettable};
ghost use Rattle.name_leaves.specs.Attributes.{types_of};
ghost use Rattle.step_fitting.specs.Fits.{is_visible as is_visible_octets};
ghost use Rattle.step_fitting.specs.Fits.{is_sound as is_sound_value, are_sound as are_sound_row};
ghost use Rattle.step_fitting.specs.Fits.{name_fits as name_fits_in, target_fits as target_fits_in};
ghost use Rattle.step_fitting.specs.Fits.{write_fits as write_fits_in};
ghost use Rattle.step_fitting.specs.Fits.{set_fits as set_fits_in, set_name_fits};
ghost use Rattle.step_fitting.specs.Fits.{service_fits as service_fits_in};
ghost use Rattle.step_fitting.specs.Fits.{setting_fits as setting_fits_in};
ghost use Rattle.step_fitting.specs.Fits.{is_association as is_association_number};
ghost use Rattle.step_fitting.specs.Fits.{step_fits as step_fits_in};

use bay_model::{AttrRow, ObjName, Service, SetName, Setting, Step, Target, Write};
use bay_rooms::{fits_int, fits_uint};
use sv_base::{AssocNo, AttrId, TypeOf, Value, rejections};

/// How many nodes, blocks and controls there are.
#[derive(Clone, Copy)]
pub struct Counts {
    pub nodes: usize,
    pub blocks: usize,
    pub controls: usize,
}

/// Whether octets 20 to 7E alone stand there.
fn is_visible(octets: &[u8]) -> bool
    ensures { result ≡ is_visible_octets octets.now }
{
    for octet in octets {
        if *octet < 32 || *octet > 126 {
            return false;
        }
    }
    true
}

/// Whether the texts of a value are visible, and its parts of a second less than one.
#[cycle(sound)]
fn is_sound(value: &Value) -> bool
    ensures { result ≡ is_sound_value value.now }
{
    match value {
        Value::Text(octets) => is_visible(octets.as_slice()),
        Value::Time(time) => time.frac < 16777216,
        Value::Struct(values) => are_sound(values.as_slice()),
        _ => true,
    }
}

#[cycle(sound)]
fn are_sound(values: &[Value]) -> bool
    ensures { result ≡ are_sound_row (row_of values.now) }
{
    for value in values {
        if !is_sound(value) {
            return false;
        }
    }
    true
}

fn name_fits(name: &ObjName) -> bool
    ensures { result ≡ name_fits_in name.now }
{
    match name {
        ObjName::Domain { domain, item } => {
            is_visible(domain.as_slice()) && is_visible(item.as_slice())
        }
        _ => true,
    }
}

fn target_fits(counts: Counts, target: &Target) -> bool
    ensures { result ≡ target_fits_in counts target.now }
{
    match target {
        Target::Node(node, name) => (node.0 as usize) < counts.nodes && name_fits(name),
        Target::Missing(name) => name_fits(name),
        Target::Alternate(name) => name_fits(name),
    }
}

fn targets_fit(counts: Counts, targets: &[Target]) -> bool
    ensures { result ≡ list_all (target_fits_in counts) targets.now }
{
    for target in targets {
        if !target_fits(counts, target) {
            return false;
        }
    }
    true
}

fn write_fits(counts: Counts, write: &Write) -> bool
    ensures { result ≡ write_fits_in counts write.now }
{
    target_fits(counts, &write.target) && is_sound(&write.value)
}

fn writes_fit(counts: Counts, writes: &[Write]) -> bool
    ensures { result ≡ list_all (write_fits_in counts) writes.now }
{
    for write in writes {
        if !write_fits(counts, write) {
            return false;
        }
    }
    true
}

/// Whether the name of a set is visible, where it is a domain's.
fn set_fits(domain: &[u8], item: &[u8]) -> bool
    ensures { result ≡ set_fits_in domain.now item.now }
{
    domain.is_empty() || (is_visible(domain) && is_visible(item))
}

fn sets_fit(sets: &[SetName]) -> bool
    ensures { result ≡ list_all set_name_fits sets.now }
{
    for set in sets {
        if !set_fits(set.domain.as_slice(), set.item.as_slice()) {
            return false;
        }
    }
    true
}

fn service_fits(counts: Counts, service: &Service) -> bool
    ensures { result ≡ service_fits_in counts service.now }
{
    match service {
        Service::TypeOfNode(target) => target_fits(counts, target),
        Service::Read { targets, .. } => targets_fit(counts, targets.as_slice()),
        Service::ReadSet { domain, item, .. } => set_fits(domain.as_slice(), item.as_slice()),
        Service::WriteVars(writes) => writes_fit(counts, writes.as_slice()),
        Service::WriteSet {
            domain,
            item,
            values,
        } => set_fits(domain.as_slice(), item.as_slice()) && are_sound(values.as_slice()),
        Service::Define {
            domain,
            item,
            members,
        } => {
            set_fits(domain.as_slice(), item.as_slice()) && targets_fit(counts, members.as_slice())
        }
        Service::SetOf { domain, item } => set_fits(domain.as_slice(), item.as_slice()),
        Service::Delete { names, .. } => sets_fit(names.as_slice()),
        Service::Reject(number) => rejections::UNKNOWN_PDU <= *number
            && *number <= rejections::INVALID_PDU,
        _ => true,
    }
}

/// Whether a value is of an attribute's type, and of its size.
fn is_typed(kind: &TypeOf, value: &Value) -> bool
    requires { IsSettable kind.now }
    ensures { result ≡ (is_kind (kind_of kind.now) value.now && is_in_range
        (kind_of kind.now) value.now) }
{
    match (kind, value) {
        (TypeOf::Bool, Value::Bool(_)) => true,
        (TypeOf::Int(width), Value::Int(z)) => fits_int(*width, *z),
        (TypeOf::Uint(width), Value::Uint(n)) => fits_uint(*width, *n),
        (TypeOf::Bits(len), Value::Bits(bits)) => bits.len() == *len as usize,
        (TypeOf::Time, Value::Time(_)) => true,
        (TypeOf::Stamp, Value::Stamp(_)) => true,
        (TypeOf::Text(most), Value::Text(text)) => text.len() <= *most as usize,
        (TypeOf::Octets(most), Value::Octets(octets)) => octets.len() <= *most as usize,
        _ => false,
    }
}

/// The row of an attribute; none exactly where it is not there.
pub fn row_at(rows: &[AttrRow], attr: AttrId) -> Option<&AttrRow>
    ensures { option_map (λ r. r.now) result ≡ slice_get rows.now attr.0 }
{
    rows.get(attr.0 as usize)
}

/// Whether a setting names an attribute, of whose type and size its value is.
fn setting_fits(rows: &[AttrRow], setting: &Setting) -> bool
    requires { All IsSettable (types_of rows.now) }
    ensures { result ≡ setting_fits_in (types_of rows.now) setting.now }
{
    match row_at(rows, setting.attr) {
        None => false,
        Some(row) => is_typed(&row.kind, &setting.value) && is_sound(&setting.value),
    }
}

fn settings_fit(rows: &[AttrRow], settings: &[Setting]) -> bool
    requires { All IsSettable (types_of rows.now) }
    ensures { result ≡ list_all (setting_fits_in (types_of rows.now)) settings.now }
{
    for setting in settings {
        if !setting_fits(rows, setting) {
            return false;
        }
    }
    true
}

/// Whether it is the number of an association, 1 to 16.
fn is_association(a: AssocNo) -> bool
    ensures { result ≡ is_association_number a.0 }
{
    1 <= a.0 && a.0 <= 16
}

/// Whether a step fits what there is: n nodes, blocks and controls, and attributes of these rows.
pub fn step_fits(counts: Counts, rows: &[AttrRow], step: &Step) -> bool
    requires { All IsSettable (types_of rows.now) }
    ensures { result ≡ step_fits_in counts (types_of rows.now) step.now }
{
    match step {
        Step::Open { a, size, .. } => is_association(*a) && 1024 <= *size && *size <= 65000,
        Step::Ask(a, request) => is_association(*a) && service_fits(counts, &request.service),
        Step::Write(a, block, _, value) => {
            is_association(*a) && (block.0 as usize) < counts.blocks && is_sound(value)
        }
        Step::Take(a) => is_association(*a),
        Step::Lost(a) => is_association(*a),
        Step::Value(settings) => settings_fit(rows, settings.as_slice()),
        Step::Done(control, _) => (control.0 as usize) < counts.controls,
        Step::Block(control, _) => (control.0 as usize) < counts.controls,
        Step::Tick => true,
    }
}
