//! The values of an SG attribute: one for each group, and the edit copy.

use bay_model::access_errors;
use bay_rooms::{Misfit, Slot};
use std::marker::Model;
use sv_base::{AttrId, Value};

/// An SG attribute by its number and its domain, with its value in each group and in the edit copy, all in memory that was
/// made before.
#[derive(Debug, Drop)]
pub(crate) struct Setting {
    attr: AttrId,
    domain: u32,
    groups: Vec<Slot>,
    copy: Slot,
}

impl Model for Setting {
    ghost use Rattle.std.specs.Prelude.{◌≡◌};
    ghost use Rattle.std.specs.List.{All};
    ghost use Rattle.bay_rooms.specs.Slots.{Held};
    ghost use Rattle.setting_groups.specs.Grouped.{Settled};

    ghost Value = { Settled };

    ghost use Rattle.std.specs.Coded.{codes};
    ghost use Rattle.sv_base.specs.Tree.{row_code};

    ghost coded = { Prim.hlevel (codes, row_code) };

    ghost view = { λ s. record {
      attr = s.attr.0;
      domain = s.domain;
      groups = s.groups.items;
      copy = s.copy;
    } };

    ghost invariant = { λ s. All (λ (h : Held). h.kind ≡ s.copy.kind) s.groups.items };
}

impl Setting {
    ghost use Rattle.std.specs.Prelude.{◌≡◌, ◌<◌, OnOk, OnErr, IfOk, length, true, slice_index_or};
    ghost use Rattle.sv_base.specs.Kinds.{is_kind, is_in_range};
    ghost use Rattle.bay_rooms.specs.Slots.{Held};
    ghost use Rattle.std.specs.List.{All};
    ghost use Rattle.setting_groups.specs.Grouped.{copy_answer, copied, loaded, stored_in, put_in};

    /// The values of an SG attribute, all of one kind.
    pub fn new(attr: AttrId, domain: u32, groups: Vec<Slot>, copy: Slot) -> Setting
        requires { All (λ (h : Held). h.kind ≡ copy.kind) groups.items }
        ensures { result ≡ record {
          attr = attr.0;
          domain = domain;
          groups = groups.items;
          copy = copy;
        } }
    {
        Setting {
            attr,
            domain,
            groups,
            copy,
        }
    }

    /// What the copy holds.
    pub fn copy(&self) -> &Slot
        ensures { result.now ≡ self.now.copy }
    {
        &self.copy
    }

    /// What the group at a place holds, and the copy where there is none.
    pub fn group(&self, place: usize) -> &Slot
        ensures { result.now ≡ slice_index_or self.now.groups place self.now.copy }
    {
        if place < self.groups.len() {
            &self.groups[place]
        } else {
            &self.copy
        }
    }

    /// The number of the domain.
    pub fn domain(&self) -> u32
        ensures { result ≡ self.now.domain }
    {
        self.domain
    }

    /// The number of the attribute.
    pub fn attr(&self) -> AttrId
        ensures { result.0 ≡ self.now.attr }
    {
        self.attr
    }

    /// A write into the edit copy, by one who holds it or not.
    pub fn write_copy(&mut self, value: &Value, is_held: bool) -> Result<(), u8>
        ensures answer { result ≡ copy_answer is_held self.old value.now }
        ensures set { OnOk result (self.new ≡ copied value.now self.old) }
        ensures kept { OnErr result (self.new ≡ self.old) }
    {
        if !is_held {
            return Err(if self.copy.is_kind(value) {
                access_errors::TEMPORARILY_UNAVAILABLE
            } else {
                access_errors::TYPE_INCONSISTENT
            });
        }
        match self.copy.set(value) {
            Ok(_) => Ok(()),
            Err(Misfit::Kind) => Err(access_errors::TYPE_INCONSISTENT),
            Err(Misfit::Range) => Err(access_errors::OBJECT_VALUE_INVALID),
        }
    }

    /// The copy takes what the group at a place holds, where the attribute is of the domain.
    pub fn load(&mut self, domain: u32, place: usize)
        ensures { self.new ≡ loaded domain place self.old }
    {
        if self.domain == domain && place < self.groups.len() {
            self.copy.copy_from(&self.groups[place]);
        }
    }

    /// The group at a place takes what the copy holds, where the attribute is of the domain.
    pub fn store(&mut self, domain: u32, place: usize)
        ensures { self.new ≡ stored_in domain place self.old }
    {
        if self.domain == domain && place < self.groups.len() {
            self.groups[place].copy_from(&self.copy);
        }
    }

    /// The group at a place takes a value that fits.
    pub fn put(&mut self, place: usize, value: &Value)
        requires kind { is_kind self.old.copy.kind value.now ≡ true }
        requires range { is_in_range self.old.copy.kind value.now ≡ true }
        ensures { self.new ≡ put_in place value.now self.old }
    {
        if place < self.groups.len() {
            let _ = self.groups[place].set(value);
        }
    }
}
