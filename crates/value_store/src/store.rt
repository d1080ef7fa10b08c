//! The attributes of a bay, with their values, and who may set them.

use crate::fault::SetFault;
use bay_rooms::{Misfit, Slot, ValueRef};
use std::marker::Model;
use sv_base::{AttrId, Value};

/// An attribute: its value, and whether clients may write it.
#[derive(Debug, Drop)]
pub(crate) struct Cell {
    pub(crate) slot: Slot,
    pub(crate) is_writable: bool,
}

/// What comes of a setting: whether the value is another than before.
#[derive(Clone, Copy, Debug, PartialEq, Eq)]
pub struct Changed {
    pub differs: bool,
}

/// The values of all attributes, by their numbers. Contracts see the list of them.
#[derive(Debug, Drop)]
pub struct Store {
    pub(crate) cells: Vec<Cell>,
}

impl Model for Store {
    ghost use Rattle.std.specs.Prelude.{List, map};
    ghost use Rattle.value_store.specs.Stored.{Stored, stored};

    ghost Value = { List Stored };

    ghost use Rattle.std.specs.Coded.{codes};
    ghost use Rattle.sv_base.specs.Tree.{row_code};

    ghost coded = { Prim.hlevel (codes, row_code) };

    ghost view = { λ s. map stored s.cells.items };
}

impl Cell {
    ghost use Rattle.std.specs.Prelude.{◌≡◌, OnOk, OnErr, not};
    ghost use Rattle.sv_base.specs.Same.{is_same};
    ghost use Rattle.value_store.specs.Stored.{stored, outcome, with_value};

    /// Sets the value.
    fn set(&mut self, value: &Value, by_client: bool) -> Result<Changed, SetFault>
        ensures answer { result ≡ outcome (stored self.old) value.now by_client }
        ensures set { OnOk result (stored self.new ≡ with_value value.now (stored self.old)) }
        ensures kept { OnErr result (self.new ≡ self.old) }
    {
        if by_client && !self.is_writable {
            return Err(if self.slot.is_kind(value) {
                SetFault::ReadOnly
            } else {
                SetFault::Kind
            });
        }
        match self.slot.set(value) {
            Ok(differs) => Ok(Changed { differs }),
            Err(Misfit::Kind) => Err(SetFault::Kind),
            Err(Misfit::Range) => Err(SetFault::TooLong),
        }
    }

    /// Takes the value of a slot of the same kind.
    fn copy_from(&mut self, from: &Slot) -> Changed
        requires { from.now.kind ≡ (stored self.old).held.kind }
        ensures differs { result.differs
            ≡ not (is_same from.now.value (stored self.old).held.value) }
        ensures set { stored self.new ≡ with_value from.now.value (stored self.old) }
    {
        Changed {
            differs: self.slot.copy_from(from),
        }
    }
}

impl Store {
    ghost use Rattle.std.specs.Prelude.{◌≡◌, ◌<◌, ◌==◌, OnOk, OnErr, length, not, slice_set};
    ghost use Rattle.sv_base.specs.Same.{is_same};
    ghost use Rattle.bay_rooms.specs.Slots.{lent};
    ghost use Rattle.value_store.specs.Stored.{attribute, outcome, with_value};

    /// How many attributes there are.
    pub fn len(&self) -> usize
        ensures { result ≡ length self.now }
    {
        self.cells.len()
    }

    /// There is no attribute.
    pub fn is_empty(&self) -> bool
        ensures { result ≡ (length self.now == 0) }
    {
        self.cells.is_empty()
    }

    /// The value of an attribute, lent.
    pub fn get(&self, attr: AttrId) -> ValueRef<'_>
        requires { attr.0 < length self.now }
        ensures { lent result ≡ (attribute self.now attr.0).held.value }
    {
        self.cells[attr.0 as usize].slot.get()
    }

    /// Sets the value of an attribute, as the process does or a client: returns whether it was another. It takes no memory.
    ///
    /// Refuses, in this order, a value of another kind, a client's write of what clients may not write, and a value out of
    /// the type's range or above its greatest length. A refusal leaves the value as it was.
    pub fn set(&mut self, attr: AttrId, value: &Value, by_client: bool) -> Result<Changed, SetFault>
        requires { attr.0 < length self.old }
        ensures answer { result ≡ outcome (attribute self.old attr.0) value.now by_client }
        ensures set { OnOk result (self.new ≡ slice_set self.old attr.0
            (with_value value.now (attribute self.old attr.0))) }
        ensures kept { OnErr result (self.new ≡ self.old) }
    {
        self.cells[attr.0 as usize].set(value, by_client)
    }

    /// Gives an attribute the value of a slot of its kind, such as that of a setting group: returns whether it was another. It
    /// takes no memory.
    pub fn copy_from(&mut self, attr: AttrId, from: &Slot) -> Changed
        requires there { attr.0 < length self.old }
        requires kind { from.now.kind ≡ (attribute self.old attr.0).held.kind }
        ensures differs { result.differs
            ≡ not (is_same from.now.value (attribute self.old attr.0).held.value) }
        ensures set { self.new ≡ slice_set self.old attr.0 (with_value from.now.value
            (attribute self.old attr.0)) }
    {
        self.cells[attr.0 as usize].copy_from(from)
    }
}
