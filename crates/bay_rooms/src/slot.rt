//! The value of an attribute in memory that was allocated before, so that setting it takes no memory.

ghost use Rattle.std.specs.Prelude.{true, ◌≡◌, ◌<◌, ◌≤◌, ◌^◌, ℕ, not, bytes_eq, nat_le, Ok, Err};
ghost use Rattle.std.specs.Prelude.{if◌then◌else◌, OnOk, OnErr, IfOk, length};
ghost use Rattle.bay_rooms.specs.declared.slot.Misfit.TheVariants as misfits;
ghost use Rattle.sv_base.specs.Same.{is_same, is_same_bits};
ghost use Rattle.sv_base.specs.declared.value.Value.TheVariants as values;
ghost use Rattle.sv_base.specs.Kinds.{truth, int, uint, bits as bit_kind, time as time_kind};
ghost use Rattle.sv_base.specs.Kinds.{stamp as stamp_kind, text, octets as octet_kind};
ghost use Rattle.sv_base.specs.Kinds.{is_kind, is_in_range, kind_of};
ghost use Rattle.bay_rooms.specs.Slots.{set_over, held_in, IsCell, IsSettable, IsWidth, type_width};
ghost use Rattle.bay_rooms.specs.Slots.{type_most};

use crate::fixed::Fixed;
use std::alloc::{AllocError, Global};
use std::marker::Model;
use sv_base::{Stamp, TypeOf, Utc, Value};

/// Why a slot refuses a value, in the order of the tests.
#[derive(Clone, Copy, Debug, PartialEq, Eq)]
pub enum Misfit {
    /// It is of another kind, or a bit string of another length.
    Kind,
    /// A number is out of the type's range, or a text or an octet string is too long.
    Range,
}

/// Whether two rows of bits are the same.
pub fn are_same(one: &[bool], other: &[bool]) -> bool
    ensures { result ≡ is_same_bits one.now other.now }
{
    match one {
        [] => other.is_empty(),
        [a, one @ ..] => match other {
            [] => false,
            [b, other @ ..] => *a == *b && are_same(one, other),
        },
    }
}

/// A signed number, and the bits of its type.
#[derive(Clone, Copy, Debug)]
struct Signed {
    width: u8,
    value: i64,
}

/// An unsigned number, and the bits of its type.
#[derive(Clone, Copy, Debug)]
struct Unsigned {
    width: u8,
    value: u64,
}

/// What a slot holds, with the bits of its type, or memory for its greatest length.
#[derive(Debug, Drop)]
enum Cell {
    Bool(bool),
    Int(Signed),
    Uint(Unsigned),
    Bits(Vec<bool>),
    Time(Utc),
    Stamp(Stamp),
    Text(Fixed),
    Octets(Fixed),
}

/// A value that is lent (ISO 9506-2, Data).
#[derive(Clone, Copy, Debug)]
pub enum ValueRef<'a> {
    Bool(bool),
    Int(i64),
    Uint(u64),
    Bits(&'a [bool]),
    Time(Utc),
    Stamp(Stamp),
    Text(&'a [u8]),
    Octets(&'a [u8]),
}

/// Sets a truth value; returns whether it was another.
fn set_bool(old: &mut bool, value: &Value) -> Result<bool, Misfit>
    ensures answer { result ≡ set_over (record {
      value = values.Bool old.old;
      kind = truth;
    }) value.now }
    ensures set { OnOk result (values.Bool old.new ≡ value.now) }
    ensures kept { OnErr result (old.new ≡ old.old) }
{
    match value {
        Value::Bool(new) => {
            let differs = *old != *new;
            *old = *new;
            Ok(differs)
        }
        _ => Err(Misfit::Kind),
    }
}

/// Whether a number is within n bits, 8, 16, 32 or 64, in two's complement.
pub fn fits_int(width: u8, value: i64) -> bool
    requires { IsWidth width }
    ensures { result ≡ is_in_range (int width) (values.Int value) }
{
    match width {
        8 => -128 <= value && value <= 127,
        16 => -32768 <= value && value <= 32767,
        32 => -2147483648 <= value && value <= 2147483647,
        _ => true,
    }
}

/// Whether a number is within n bits, 8, 16, 32 or 64.
pub fn fits_uint(width: u8, value: u64) -> bool
    requires { IsWidth width }
    ensures { result ≡ is_in_range (uint width) (values.Uint value) }
{
    match width {
        8 => value < 256,
        16 => value < 65536,
        32 => value < 4294967296,
        _ => true,
    }
}

/// Sets a signed number of n bits; returns whether it was another.
fn set_int(old: &mut Signed, value: &Value) -> Result<bool, Misfit>
    requires { IsWidth old.old.width }
    ensures answer { result ≡ set_over (record {
      value = values.Int old.old.value;
      kind = int old.old.width;
    }) value.now }
    ensures set { OnOk result (values.Int old.new.value ≡ value.now) }
    ensures same_width { old.new.width ≡ old.old.width }
    ensures kept { OnErr result (old.new ≡ old.old) }
{
    match value {
        Value::Int(new) => {
            if !fits_int(old.width, *new) {
                return Err(Misfit::Range);
            }
            let differs = old.value != *new;
            old.value = *new;
            Ok(differs)
        }
        _ => Err(Misfit::Kind),
    }
}

/// Sets an unsigned number of n bits; returns whether it was another.
fn set_uint(old: &mut Unsigned, value: &Value) -> Result<bool, Misfit>
    requires { IsWidth old.old.width }
    ensures answer { result ≡ set_over (record {
      value = values.Uint old.old.value;
      kind = uint old.old.width;
    }) value.now }
    ensures set { OnOk result (values.Uint old.new.value ≡ value.now) }
    ensures same_width { old.new.width ≡ old.old.width }
    ensures kept { OnErr result (old.new ≡ old.old) }
{
    match value {
        Value::Uint(new) => {
            if !fits_uint(old.width, *new) {
                return Err(Misfit::Range);
            }
            let differs = old.value != *new;
            old.value = *new;
            Ok(differs)
        }
        _ => Err(Misfit::Kind),
    }
}

/// Sets bits, as many as there are; returns whether they were others.
fn set_bits(old: &mut Vec<bool>, value: &Value) -> Result<bool, Misfit>
    ensures answer { result ≡ set_over (record {
      value = values.Bits old.old.items;
      kind = bit_kind (length old.old.items);
    }) value.now }
    ensures set { OnOk result (values.Bits old.new.items ≡ value.now) }
    ensures kept { OnErr result (old.new ≡ old.old) }
    ensures same_length { length old.new.items ≡ length old.old.items }
{
    match value {
        Value::Bits(new) => {
            if new.len() != old.len() {
                return Err(Misfit::Kind);
            }
            let differs = !are_same(new.as_slice(), old.as_slice());
            old.copy_from_slice(new.as_slice());
            Ok(differs)
        }
        _ => Err(Misfit::Kind),
    }
}

/// Sets a time; returns whether it was another.
fn set_time(old: &mut Utc, value: &Value) -> Result<bool, Misfit>
    ensures answer { result ≡ set_over (record {
      value = values.Time old.old;
      kind = time_kind;
    }) value.now }
    ensures set { OnOk result (values.Time old.new ≡ value.now) }
    ensures kept { OnErr result (old.new ≡ old.old) }
{
    match value {
        Value::Time(new) => {
            let differs = new.secs != old.secs
                || new.frac != old.frac
                || new.quality != old.quality;
            *old = *new;
            Ok(differs)
        }
        _ => Err(Misfit::Kind),
    }
}

/// Sets an entry time; returns whether it was another.
fn set_stamp(old: &mut Stamp, value: &Value) -> Result<bool, Misfit>
    ensures answer { result ≡ set_over (record {
      value = values.Stamp old.old;
      kind = stamp_kind;
    }) value.now }
    ensures set { OnOk result (values.Stamp old.new ≡ value.now) }
    ensures kept { OnErr result (old.new ≡ old.old) }
{
    match value {
        Value::Stamp(new) => {
            let differs = new.ms != old.ms || new.days != old.days;
            *old = *new;
            Ok(differs)
        }
        _ => Err(Misfit::Kind),
    }
}

/// Puts octets in the place of others, within their capacity; returns whether they were others.
pub fn replace(old: &mut Fixed, new: &[u8]) -> bool
    requires { length new.now ≤ old.old.room }
    ensures differs { result ≡ not (bytes_eq new.now old.old.items) }
    ensures set { old.new ≡ record { items = new.now; room = old.old.room } }
{
    let differs = new != old.as_slice();
    old.clear();
    old.push(new);
    differs
}

/// Puts octets in the place of others, where they fit; returns whether they were others.
fn refill(old: &mut Fixed, new: &[u8]) -> Result<bool, Misfit>
    ensures answer { result ≡ (if nat_le (length new.now) old.old.room
        then Ok (not (bytes_eq new.now old.old.items)) else Err misfits.Range) }
    ensures set { OnOk result (old.new ≡ record { items = new.now; room = old.old.room }) }
    ensures kept { OnErr result (old.new ≡ old.old) }
{
    if old.room() < new.len() {
        return Err(Misfit::Range);
    }
    Ok(replace(old, new))
}

/// Sets a text; returns whether it was another.
fn set_text(old: &mut Fixed, value: &Value) -> Result<bool, Misfit>
    ensures answer { result ≡ set_over (record {
      value = values.Text old.old.items;
      kind = text old.old.room;
    }) value.now }
    ensures set { OnOk result (values.Text old.new.items ≡ value.now) }
    ensures kept { OnErr result (old.new ≡ old.old) }
    ensures same_room { old.new.room ≡ old.old.room }
{
    match value {
        Value::Text(new) => refill(old, new.as_slice()),
        _ => Err(Misfit::Kind),
    }
}

/// Sets an octet string; returns whether it was another.
fn set_octets(old: &mut Fixed, value: &Value) -> Result<bool, Misfit>
    ensures answer { result ≡ set_over (record {
      value = values.Octets old.old.items;
      kind = octet_kind old.old.room;
    }) value.now }
    ensures set { OnOk result (values.Octets old.new.items ≡ value.now) }
    ensures kept { OnErr result (old.new ≡ old.old) }
    ensures same_room { old.new.room ≡ old.old.room }
{
    match value {
        Value::Octets(new) => refill(old, new.as_slice()),
        _ => Err(Misfit::Kind),
    }
}

/// The bits of a number's type.
fn width_of(kind: &TypeOf) -> u8
    ensures { result ≡ type_width kind.now }
{
    match kind {
        TypeOf::Int(width) => *width,
        TypeOf::Uint(width) => *width,
        _ => 8,
    }
}

/// The greatest length of a text or octet string.
fn most_of(kind: &TypeOf) -> u16
    ensures { result ≡ type_most kind.now }
{
    match kind {
        TypeOf::Text(most) => *most,
        TypeOf::Octets(most) => *most,
        _ => 0,
    }
}

/// Octets with capacity for that many.
fn roomy(alloc: Global, most: u16, octets: &[u8]) -> Result<Fixed, AllocError>
    requires { length octets.now ≤ most }
    ensures { IfOk result (λ f. f ≡ record { items = octets.now; room = most }) }
{
    let mut room = Fixed::new(alloc, u32::from(most))?;
    room.push(octets);
    Ok(room)
}

/// The cell of a type, with a value of it.
fn cell_of(alloc: Global, kind: &TypeOf, value: &Value) -> Result<Cell, AllocError>
    requires plain { IsSettable kind.now }
    requires kind { is_kind (kind_of kind.now) value.now ≡ true }
    requires range { is_in_range (kind_of kind.now) value.now ≡ true }
    ensures held { IfOk result (λ c. held_in c ≡ record {
      value = value.now;
      kind = kind_of kind.now;
    }) }
    ensures cell { IfOk result IsCell }
{
    match value {
        Value::Bool(b) => Ok(Cell::Bool(*b)),
        Value::Int(z) => Ok(Cell::Int(Signed {
            width: width_of(kind),
            value: *z,
        })),
        Value::Uint(n) => Ok(Cell::Uint(Unsigned {
            width: width_of(kind),
            value: *n,
        })),
        Value::Bits(bits) => Ok(Cell::Bits(Vec::from_slice(alloc, bits.as_slice())?)),
        Value::Time(time) => Ok(Cell::Time(*time)),
        Value::Stamp(stamp) => Ok(Cell::Stamp(*stamp)),
        Value::Text(text) => Ok(Cell::Text(roomy(alloc, most_of(kind), text.as_slice())?)),
        Value::Octets(octets) => Ok(Cell::Octets(roomy(alloc, most_of(kind), octets.as_slice())?)),
        Value::Struct(_) | Value::Other => Ok(Cell::Bool(false)),
    }
}

/// Takes the truth value of another cell; returns whether it was another.
fn take_bool(old: &mut bool, from: &Cell) -> bool
    requires { (held_in from.now).kind ≡ truth }
    ensures differs { result ≡ not (is_same (held_in from.now).value (values.Bool old.old)) }
    ensures taken { record { value = values.Bool old.new; kind = truth } ≡ held_in from.now }
{
    match from {
        Cell::Bool(new) => {
            let differs = *old != *new;
            *old = *new;
            differs
        }
        _ => false,
    }
}

/// Takes the signed number of another cell of the same width; returns whether it was another.
fn take_int(old: &mut Signed, from: &Cell) -> bool
    requires { (held_in from.now).kind ≡ int old.old.width }
    ensures differs { result ≡ not (is_same (held_in from.now).value (values.Int old.old.value)) }
    ensures taken { record { value = values.Int old.new.value; kind = int old.new.width }
        ≡ held_in from.now }
    ensures same_width { old.new.width ≡ old.old.width }
{
    match from {
        Cell::Int(new) => {
            let differs = old.value != new.value;
            old.value = new.value;
            differs
        }
        _ => false,
    }
}

/// Takes the unsigned number of another cell of the same width; returns whether it was another.
fn take_uint(old: &mut Unsigned, from: &Cell) -> bool
    requires { (held_in from.now).kind ≡ uint old.old.width }
    ensures differs { result ≡ not (is_same (held_in from.now).value (values.Uint old.old.value)) }
    ensures taken { record { value = values.Uint old.new.value; kind = uint old.new.width }
        ≡ held_in from.now }
    ensures same_width { old.new.width ≡ old.old.width }
{
    match from {
        Cell::Uint(new) => {
            let differs = old.value != new.value;
            old.value = new.value;
            differs
        }
        _ => false,
    }
}

/// Takes the bits of another cell of as many; returns whether they were others.
fn take_bits(old: &mut Vec<bool>, from: &Cell) -> bool
    requires { (held_in from.now).kind ≡ bit_kind (length old.old.items) }
    ensures differs { result ≡ not (is_same (held_in from.now).value (values.Bits old.old.items)) }
    ensures taken { record {
      value = values.Bits old.new.items;
      kind = bit_kind (length old.new.items);
    } ≡ held_in from.now }
{
    match from {
        Cell::Bits(new) => {
            let differs = !are_same(new.as_slice(), old.as_slice());
            old.copy_from_slice(new.as_slice());
            differs
        }
        _ => false,
    }
}

/// Takes the time of another cell; returns whether it was another.
fn take_time(old: &mut Utc, from: &Cell) -> bool
    requires { (held_in from.now).kind ≡ time_kind }
    ensures differs { result ≡ not (is_same (held_in from.now).value (values.Time old.old)) }
    ensures taken { record { value = values.Time old.new; kind = time_kind } ≡ held_in from.now }
{
    match from {
        Cell::Time(new) => {
            let differs = new.secs != old.secs
                || new.frac != old.frac
                || new.quality != old.quality;
            *old = *new;
            differs
        }
        _ => false,
    }
}

/// Takes the entry time of another cell; returns whether it was another.
fn take_stamp(old: &mut Stamp, from: &Cell) -> bool
    requires { (held_in from.now).kind ≡ stamp_kind }
    ensures differs { result ≡ not (is_same (held_in from.now).value (values.Stamp old.old)) }
    ensures taken { record { value = values.Stamp old.new; kind = stamp_kind } ≡ held_in from.now }
{
    match from {
        Cell::Stamp(new) => {
            let differs = new.ms != old.ms || new.days != old.days;
            *old = *new;
            differs
        }
        _ => false,
    }
}

/// Takes the text of another cell of as much capacity; returns whether it was another.
fn take_text(old: &mut Fixed, from: &Cell) -> bool
    requires { (held_in from.now).kind ≡ text old.old.room }
    ensures differs { result ≡ not (is_same (held_in from.now).value (values.Text old.old.items)) }
    ensures taken { record { value = values.Text old.new.items; kind = text old.new.room }
        ≡ held_in from.now }
{
    match from {
        Cell::Text(new) => {
            let differs = new.as_slice() != old.as_slice();
            old.copy_from(new);
            differs
        }
        _ => false,
    }
}

/// Takes the octet string of another cell of as much capacity; returns whether it was another.
fn take_octets(old: &mut Fixed, from: &Cell) -> bool
    requires { (held_in from.now).kind ≡ octet_kind old.old.room }
    ensures differs { result ≡ not (is_same (held_in from.now).value
        (values.Octets old.old.items)) }
    ensures taken { record { value = values.Octets old.new.items; kind = octet_kind old.new.room }
        ≡ held_in from.now }
{
    match from {
        Cell::Octets(new) => {
            let differs = new.as_slice() != old.as_slice();
            old.copy_from(new);
            differs
        }
        _ => false,
    }
}

/// The value of an attribute, which can be set without memory. Contracts see the value and its kind.
#[derive(Debug, Drop)]
pub struct Slot {
    cell: Cell,
}

impl Model for Slot {
    ghost use Rattle.bay_rooms.specs.Slots.{Held, held_in, IsCell};

    ghost Value = { Held };

    ghost use Rattle.std.specs.Coded.{codes};
    ghost use Rattle.sv_base.specs.Tree.{row_code};

    ghost coded = { Prim.hlevel (codes, row_code) };

    ghost view = { λ s. held_in s.cell };

    ghost invariant = { λ s. IsCell s.cell };
}

impl Slot {
    ghost use Rattle.std.specs.Prelude.{◌≡◌, OnOk, OnErr, IfOk, true, not};
    ghost use Rattle.sv_base.specs.Same.{is_same};
    ghost use Rattle.sv_base.specs.Kinds.{kind_of, is_kind, is_in_range};
    ghost use Rattle.bay_rooms.specs.Slots.{set_over, IsSettable, lent};

    /// A slot of this type with this value, which is of the type and within its range.
    pub fn new(alloc: Global, kind: &TypeOf, value: &Value) -> Result<Slot, AllocError>
        requires plain { IsSettable kind.now }
        requires kind { is_kind (kind_of kind.now) value.now ≡ true }
        requires range { is_in_range (kind_of kind.now) value.now ≡ true }
        ensures { IfOk result (λ s. s ≡ record { value = value.now; kind = kind_of kind.now }) }
    {
        Ok(Slot {
            cell: cell_of(alloc, kind, value)?,
        })
    }

    /// Whether a value is of the slot's kind, and a bit string of its length.
    pub fn is_kind(&self, value: &Value) -> bool
        ensures { result ≡ is_kind self.now.kind value.now }
    {
        match &self.cell {
            Cell::Bool(_) => matches!(value, Value::Bool(_)),
            Cell::Int(_) => matches!(value, Value::Int(_)),
            Cell::Uint(_) => matches!(value, Value::Uint(_)),
            Cell::Bits(old) => match value {
                Value::Bits(new) => new.len() == old.len(),
                _ => false,
            },
            Cell::Time(_) => matches!(value, Value::Time(_)),
            Cell::Stamp(_) => matches!(value, Value::Stamp(_)),
            Cell::Text(_) => matches!(value, Value::Text(_)),
            Cell::Octets(_) => matches!(value, Value::Octets(_)),
        }
    }

    /// Sets the value; returns whether it was another. It takes no memory. A value that is refused leaves the one before.
    pub fn set(&mut self, value: &Value) -> Result<bool, Misfit>
        ensures answer { result ≡ set_over self.old value.now }
        ensures set { OnOk result (self.new ≡ record { value = value.now; kind = self.old.kind }) }
        ensures kept { OnErr result (self.new ≡ self.old) }
    {
        match &mut self.cell {
            Cell::Bool(old) => set_bool(old, value),
            Cell::Int(old) => set_int(old, value),
            Cell::Uint(old) => set_uint(old, value),
            Cell::Bits(old) => set_bits(old, value),
            Cell::Time(old) => set_time(old, value),
            Cell::Stamp(old) => set_stamp(old, value),
            Cell::Text(old) => set_text(old, value),
            Cell::Octets(old) => set_octets(old, value),
        }
    }

    /// Takes the value of another slot of the same kind; returns whether it was another. It takes no memory.
    pub fn copy_from(&mut self, other: &Slot) -> bool
        requires { other.now.kind ≡ self.old.kind }
        ensures differs { result ≡ not (is_same other.now.value self.old.value) }
        ensures taken { self.new ≡ other.now }
    {
        match &mut self.cell {
            Cell::Bool(old) => take_bool(old, &other.cell),
            Cell::Int(old) => take_int(old, &other.cell),
            Cell::Uint(old) => take_uint(old, &other.cell),
            Cell::Bits(old) => take_bits(old, &other.cell),
            Cell::Time(old) => take_time(old, &other.cell),
            Cell::Stamp(old) => take_stamp(old, &other.cell),
            Cell::Text(old) => take_text(old, &other.cell),
            Cell::Octets(old) => take_octets(old, &other.cell),
        }
    }

    /// The value, lent.
    pub fn get(&self) -> ValueRef<'_>
        ensures { lent result ≡ self.now.value }
    {
        match &self.cell {
            Cell::Bool(value) => ValueRef::Bool(*value),
            Cell::Int(number) => ValueRef::Int(number.value),
            Cell::Uint(number) => ValueRef::Uint(number.value),
            Cell::Bits(bits) => ValueRef::Bits(bits),
            Cell::Time(time) => ValueRef::Time(*time),
            Cell::Stamp(stamp) => ValueRef::Stamp(*stamp),
            Cell::Text(text) => ValueRef::Text(text.as_slice()),
            Cell::Octets(octets) => ValueRef::Octets(octets.as_slice()),
        }
    }
}
