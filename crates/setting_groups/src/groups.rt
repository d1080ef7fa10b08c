//! The setting groups of all domains.

ghost use Rattle.std.specs.Prelude.{◌≡◌, map};
ghost use Rattle.setting_groups.specs.Grouped.{loaded, stored_in, left_by};

use crate::domain::{Domain, GroupNumbers};
use crate::setting::Setting;
use bay_rooms::Slot;
use std::marker::Model;
use sv_base::{AssocNo, AttrId, Moment, Value};

/// The setting group blocks of the domains by their numbers, and the values of the SG attributes in the order of their
/// numbers, all in memory that was allocated before: no call but those that open takes memory. Contracts see both lists.
#[derive(Debug, Drop)]
pub struct Groups {
    pub(crate) domains: Vec<Domain>,
    pub(crate) settings: Vec<Setting>,
}

impl Model for Groups {
    ghost use Rattle.setting_groups.specs.Grouped.{Grouped};

    ghost Value = { Grouped };

    ghost use Rattle.std.specs.Coded.{codes};
    ghost use Rattle.sv_base.specs.Tree.{row_code};

    ghost coded = { Prim.hlevel (codes, row_code) };

    ghost view = { λ g. record { domains = g.domains.items; settings = g.settings.items } };
}

/// The copies of a domain's attributes take what the group at a place holds.
fn load_all(settings: &mut [Setting], domain: u32, place: usize)
    ensures { settings.new ≡ map (loaded domain place) settings.old }
{
    for at in 0..settings.len() {
        settings[at].load(domain, place);
    }
}

/// The group at a place takes what the copies of a domain's attributes hold.
fn store_all(settings: &mut [Setting], domain: u32, place: usize)
    ensures { settings.new ≡ map (stored_in domain place) settings.old }
{
    for at in 0..settings.len() {
        settings[at].store(domain, place);
    }
}

/// An association was lost in each domain.
fn lose_all(domains: &mut [Domain], a: AssocNo)
    ensures { domains.new ≡ map (left_by a.0) domains.old }
{
    for at in 0..domains.len() {
        domains[at].lose(a);
    }
}

impl Groups {
    ghost use Rattle.std.specs.Prelude.{◌≡◌, ◌<◌, ◌==◌, OnOk, OnErr, length, true, if◌then◌else◌};
    ghost use Rattle.std.specs.Option.{option_map};
    ghost use Rattle.sv_base.specs.Kinds.{is_kind, is_in_range};
    ghost use Rattle.setting_groups.specs.Grouped.{domain_at, setting_at, act_answer, edit_answer};
    ghost use Rattle.setting_groups.specs.Grouped.{copy_answer, stored_answer, number_in, is_on};
    ghost use Rattle.setting_groups.specs.Grouped.{holds, edit_number, active_place, after_act};
    ghost use Rattle.setting_groups.specs.Grouped.{after_edit, after_copy, after_confirm};
    ghost use Rattle.setting_groups.specs.Grouped.{after_loss};
    ghost use Rattle.setting_groups.specs.Grouped.{after_put, active_of, copy_of, shown_of};

    /// These blocks and settings. It takes no memory.
    pub(crate) fn of(domains: Vec<Domain>, settings: Vec<Setting>) -> Groups
        ensures { result ≡ record { domains = domains.items; settings = settings.items } }
    {
        Groups { domains, settings }
    }

    /// A client's write of ActSG: makes a group of the domain the active one. Refuses, in this order, with 7 a value of
    /// another kind, and with 11 the number of no group.
    pub fn write_act(&mut self, domain: u32, value: &Value, now: Moment) -> Result<(), u8>
        requires { domain < length self.old.domains }
        ensures answer { result ≡ act_answer (domain_at self.old domain) value.now }
        ensures set { OnOk result (self.new ≡ after_act domain (number_in value.now) now self.old) }
        ensures kept { OnErr result (self.new ≡ self.old) }
    {
        self.domains[domain as usize].write_act(value, now)
    }

    /// A client's write of EditSG: loads a copy of a group of the domain, or with 0 drops the copy. Refuses, in this order,
    /// with 7 a value of another kind, with 2 where another association holds the edit, and with 11 a number above that of
    /// the groups.
    pub fn write_edit(&mut self, domain: u32, a: AssocNo, value: &Value) -> Result<(), u8>
        requires { domain < length self.old.domains }
        ensures answer { result ≡ edit_answer a.0 (domain_at self.old domain) value.now }
        ensures set { OnOk result (self.new ≡ after_edit domain a.0
            (number_in value.now) self.old) }
        ensures kept { OnErr result (self.new ≡ self.old) }
    {
        self.domains[domain as usize].write_edit(a, value)?;
        if self.domains[domain as usize].is_edited() {
            let place = self.domains[domain as usize].edit_place();
            load_all(&mut self.settings, domain, place);
        }
        Ok(())
    }

    /// A client's write of the copy of an SG attribute. Refuses, in this order, with 7 a value of another kind, with 2 where
    /// the association doesn't hold the edit, and with 11 a value out of range or too long.
    pub fn write_se(&mut self, a: AssocNo, setting: usize, value: &Value) -> Result<(), u8>
        requires there { setting < length self.old.settings }
        requires domain { (setting_at self.old setting).domain < length self.old.domains }
        ensures answer { result ≡ copy_answer
            (holds a.0 (domain_at self.old (setting_at self.old setting).domain))
            (setting_at self.old setting) value.now }
        ensures set { OnOk result (self.new ≡ after_copy setting value.now self.old) }
        ensures kept { OnErr result (self.new ≡ self.old) }
    {
        let domain = self.settings[setting].domain();
        let is_held = self.domains[domain as usize].is_held_by(a);
        self.settings[setting].write_copy(value, is_held)
    }

    /// A client's write of CnfEdit: TRUE stores the copy as its group and ends the edit, FALSE does nothing. Tells whether the
    /// active group was stored. Refuses, in this order, with 7 a value of another kind, and with 2 where the association
    /// doesn't hold the edit.
    pub fn confirm(&mut self, domain: u32, a: AssocNo, value: &Value) -> Result<bool, u8>
        requires { domain < length self.old.domains }
        ensures answer { result ≡ stored_answer a.0 (domain_at self.old domain) value.now }
        ensures set { OnOk result (self.new ≡ (if is_on value.now then after_confirm domain self.old
            else self.old)) }
        ensures kept { OnErr result (self.new ≡ self.old) }
    {
        if !self.domains[domain as usize].confirms(a, value)? {
            return Ok(false);
        }
        let numbers = self.domains[domain as usize].numbers();
        let place = self.domains[domain as usize].edit_place();
        store_all(&mut self.settings, domain, place);
        self.domains[domain as usize].end_edit();
        Ok(numbers.edit == numbers.active)
    }

    /// An association was lost: what it edits is dropped.
    pub fn lost(&mut self, a: AssocNo)
        ensures { self.new ≡ after_loss a.0 self.old }
    {
        lose_all(&mut self.domains, a);
    }

    /// The process sets an SG attribute: the active group takes the value, which is of the attribute's type and size.
    pub fn put(&mut self, setting: usize, value: &Value)
        requires there { setting < length self.old.settings }
        requires domain { (setting_at self.old setting).domain < length self.old.domains }
        requires kind { is_kind (setting_at self.old setting).copy.kind value.now ≡ true }
        requires range { is_in_range (setting_at self.old setting).copy.kind value.now ≡ true }
        ensures { self.new ≡ after_put setting value.now self.old }
    {
        let domain = self.settings[setting].domain();
        let place = self.domains[domain as usize].active_place();
        self.settings[setting].put(place, value);
    }

    /// How many SG attributes there are.
    pub fn len(&self) -> usize
        ensures { result ≡ length self.now.settings }
    {
        self.settings.len()
    }

    /// There is no SG attribute.
    pub fn is_empty(&self) -> bool
        ensures { result ≡ (length self.now.settings == 0) }
    {
        self.settings.is_empty()
    }

    /// The number of an SG attribute.
    pub fn attr(&self, setting: usize) -> AttrId
        requires { setting < length self.now.settings }
        ensures { result.0 ≡ (setting_at self.now setting).attr }
    {
        self.settings[setting].attr()
    }

    /// The number of the domain of an SG attribute.
    pub fn domain(&self, setting: usize) -> u32
        requires { setting < length self.now.settings }
        ensures { result ≡ (setting_at self.now setting).domain }
    {
        self.settings[setting].domain()
    }

    /// What the active group holds of an SG attribute.
    pub fn active(&self, setting: usize) -> &Slot
        requires there { setting < length self.now.settings }
        requires domain { (setting_at self.now setting).domain < length self.now.domains }
        ensures { result.now ≡ active_of self.now setting }
    {
        let domain = self.settings[setting].domain();
        let place = self.domains[domain as usize].active_place();
        self.settings[setting].group(place)
    }

    /// What the edit copy holds of an SG attribute; none exactly where nobody holds the edit.
    pub fn copy(&self, setting: usize) -> Option<&Slot>
        requires there { setting < length self.now.settings }
        requires domain { (setting_at self.now setting).domain < length self.now.domains }
        ensures { option_map (λ s. s.now) result ≡ copy_of self.now setting }
    {
        let domain = self.settings[setting].domain();
        if self.domains[domain as usize].is_edited() {
            Some(self.settings[setting].copy())
        } else {
            None
        }
    }

    /// What is read of an SG attribute: under SG what the active group holds, and under SE what the edit copy holds, none exactly
    /// where nobody holds the edit.
    pub fn shown(&self, setting: usize, is_edited: bool) -> Option<&Slot>
        requires there { setting < length self.now.settings }
        requires domain { (setting_at self.now setting).domain < length self.now.domains }
        ensures { option_map (λ s. s.now) result ≡ shown_of self.now setting is_edited }
    {
        if is_edited {
            self.copy(setting)
        } else {
            Some(self.active(setting))
        }
    }

    /// What the block of a domain shows of itself.
    pub fn numbers(&self, domain: u32) -> GroupNumbers
        requires { domain < length self.now.domains }
        ensures count { result.count ≡ (domain_at self.now domain).count }
        ensures active { result.active ≡ (domain_at self.now domain).active }
        ensures edit { result.edit ≡ edit_number (domain_at self.now domain) }
        ensures last { result.last ≡ (domain_at self.now domain).last }
    {
        self.domains[domain as usize].numbers()
    }
}
