//! Writes of a block's components (IEC 61850-7-2, SetBRCBValues).

ghost use Rattle.std.specs.Prelude.{◌≡◌, ℕ, not, if◌then◌else◌};
ghost use Rattle.bay_model.specs.Model.{uint, stamp, octets};
ghost use Rattle.sv_base.specs.Kinds.{is_kind};
ghost use Rattle.sv_base.specs.declared.value.Value.TheVariants as kinds;
ghost use Rattle.bay_model.specs.Breaks.{is_empty as is_empty_list};
ghost use Rattle.brcb_state.specs.declared.told.Effect.TheVariants as effects;
ghost use Rattle.bay_model.specs.BlockWrites.{is_retained_or_zero};
ghost use Rattle.bay_model.specs.declared.access_errors.TheConstants.{TEMPORARILY_UNAVAILABLE};
ghost use Rattle.bay_model.specs.declared.access_errors.TheConstants.{OBJECT_ACCESS_DENIED};
ghost use Rattle.bay_model.specs.declared.access_errors.TheConstants.{TYPE_INCONSISTENT};
ghost use Rattle.bay_model.specs.declared.access_errors.TheConstants.{OBJECT_VALUE_INVALID};

use crate::block::{Block, Holder, bit};
use crate::reservation::Reserved;
use crate::told::{Effect, Retained};
use bay_model::{Comp, access_errors};
use sv_base::{AssocNo, Moment, Owner, Value};

pub fn is_empty(octets: &[u8]) -> bool
    ensures { result ≡ is_empty_list octets.now }
{
    matches!(octets, [])
}

/// The entry of a number is retained, or the number is zero.
fn is_retained_or_zero(kept: Retained, n: u64) -> bool
    ensures { result ≡ is_retained_or_zero kept.front kept.len n }
{
    n == 0 || (kept.front < n && n <= kept.len)
}

/// What a number that isn't writable refuses a value by.
fn number_refusal(value: &Value) -> u8
    ensures revision { result ≡ (if not (is_kind (uint 32) value.now) then TYPE_INCONSISTENT
        else OBJECT_ACCESS_DENIED) }
    ensures count { result ≡ (if not (is_kind (uint 16) value.now) then TYPE_INCONSISTENT
        else OBJECT_ACCESS_DENIED) }
{
    match value {
        Value::Uint(_) => access_errors::OBJECT_ACCESS_DENIED,
        _ => access_errors::TYPE_INCONSISTENT,
    }
}

/// What a time that isn't writable refuses a value by.
fn stamp_refusal(value: &Value) -> u8
    ensures { result ≡ (if not (is_kind stamp value.now) then TYPE_INCONSISTENT
        else OBJECT_ACCESS_DENIED) }
{
    match value {
        Value::Stamp(_) => access_errors::OBJECT_ACCESS_DENIED,
        _ => access_errors::TYPE_INCONSISTENT,
    }
}

/// What an address that isn't writable refuses a value by.
fn owner_refusal(value: &Value) -> u8
    ensures { result ≡ (if not (is_kind (octets 64) value.now) then TYPE_INCONSISTENT
        else OBJECT_ACCESS_DENIED) }
{
    match value {
        Value::Octets(_) => access_errors::OBJECT_ACCESS_DENIED,
        _ => access_errors::TYPE_INCONSISTENT,
    }
}

impl Block {
    ghost use Rattle.bay_model.specs.BlockWrites as model;
    ghost use Rattle.bay_model.specs.Reservations.{lasting, reservation_by};
    ghost use Rattle.brcb_state.specs.Refusals.{IsAcceptedFor};
    ghost use Rattle.std.specs.Prelude.{[], true};
    ghost use Rattle.sv_base.specs.declared.numbers.AssocNo.{AssocNo};
    ghost use Rattle.std.specs.Prelude.{◌≡◌, ◌≤◌, ◌==◌, ◌&&◌, ◌||◌, ℕ, Bool, false, is_none};
    ghost use Rattle.std.specs.Prelude.{is_some, min, Result, Ok, Err, OnOk, OnErr, if◌then◌else◌};
    ghost use Rattle.sv_base.specs.declared.value.Value.TheVariants as kinds;
    ghost use Rattle.sv_base.specs.declared.components.Comp.TheVariants as comps;
    ghost use Rattle.brcb_state.specs.declared.told.Retained.{Retained};
    ghost use Rattle.brcb_state.specs.declared.told.Effect.TheVariants as effects;
    ghost use Rattle.brcb_state.specs.Changes.{attributes_written, written, effect_of};
    ghost use Rattle.bay_model.specs.BlockWrites.{is_retained_or_zero};
    ghost use Rattle.brcb_state.specs.Refusals.{answer_to, is_foreign, names_nothing, anyone};

    /// The count of reports after RptEna.
    fn count_after(&self, on: bool) -> u16
        ensures { result ≡ (if on && is_none self.now.enabler then 0 else self.now.count) }
    {
        if on && self.enabler.is_none() {
            0
        } else {
            self.count
        }
    }

    /// What an accepted RptEna brings about.
    fn effect_of_enabling(&self, on: bool) -> Effect
        ensures { result ≡ effect_of comps.RptEna (kinds.Bool on) self.now }
    {
        match (on, self.enabler.is_some()) {
            (true, false) => Effect::Enabled,
            (false, true) => Effect::Disabled,
            _ => Effect::Nothing,
        }
    }

    fn enable(&mut self, a: AssocNo, owner: &Owner, foreign: bool, on: bool) -> Result<Effect, u8>
        ensures answer { result ≡ answer_to a foreign comps.RptEna (kinds.Bool on) false self.old }
        ensures written { OnOk result (self.new ≡ attributes_written a owner.now comps.RptEna
            (kinds.Bool on) 0 self.old) }
        ensures unchanged { OnErr result (self.new ≡ self.old) }
    {
        if foreign || self.is_enabled_by_another(a) {
            return Err(access_errors::TEMPORARILY_UNAVAILABLE);
        }
        if on && is_empty(self.options.dat_set()) {
            return Err(access_errors::OBJECT_ATTRIBUTE_INCONSISTENT);
        }
        let effect = self.effect_of_enabling(on);
        self.count = self.count_after(on);
        self.enabler = if on {
            Some(Holder {
                by: a,
                owner: *owner,
            })
        } else {
            None
        };
        Ok(effect)
    }

    fn write_rpt_ena(
        &mut self,
        a: AssocNo,
        owner: &Owner,
        foreign: bool,
        value: &Value,
    ) -> Result<Effect, u8>
        ensures answer { result ≡ answer_to a foreign comps.RptEna value.now false self.old }
        ensures written { OnOk result ((front : ℕ)
            → self.new ≡ attributes_written a owner.now comps.RptEna value.now front self.old) }
        ensures unchanged { OnErr result (self.new ≡ self.old) }
    {
        match value {
            Value::Bool(on) => self.enable(a, owner, foreign, *on),
            _ => Err(access_errors::TYPE_INCONSISTENT),
        }
    }

    /// The cursor after an accepted EntryID.
    fn resumed(&self, n: u64, front: u64) -> u64
        ensures { result ≡ (if n == 0 then min self.now.cursor front else n) }
    {
        if n == 0 { self.cursor.min(front) } else { n }
    }

    fn resume(&mut self, foreign: bool, n: u64, kept: Retained) -> Result<Effect, u8>
        ensures answer { result ≡ (if foreign || is_some self.old.enabler
            then Err TEMPORARILY_UNAVAILABLE else
            (if is_retained_or_zero kept.front kept.len n then Ok effects.Nothing
            else Err OBJECT_VALUE_INVALID)) }
        ensures written { OnOk result (self.new ≡ record self.old {
          cursor = if n == 0
              then min self.old.cursor kept.front else n;
        }) }
        ensures unchanged { OnErr result (self.new ≡ self.old) }
    {
        if foreign || self.enabler.is_some() {
            return Err(access_errors::TEMPORARILY_UNAVAILABLE);
        }
        if !is_retained_or_zero(kept, n) {
            return Err(access_errors::OBJECT_VALUE_INVALID);
        }
        self.cursor = self.resumed(n, kept.front);
        Ok(Effect::Nothing)
    }

    fn resume_at(
        &mut self,
        a: AssocNo,
        foreign: bool,
        octets: &[u8],
        kept: Retained,
    ) -> Result<Effect, u8>
        ensures answer { result ≡ answer_to a foreign comps.EntryID (kinds.Octets octets.now)
            (names_nothing kept false comps.EntryID (kinds.Octets octets.now)) self.old }
        ensures written { OnOk result (self.new ≡ attributes_written a [] comps.EntryID
            (kinds.Octets octets.now) kept.front self.old) }
        ensures unchanged { OnErr result (self.new ≡ self.old) }
    {
        match octets.as_array::<8>() {
            Some(id) => self.resume(foreign, u64::from_be_bytes(*id), kept),
            None => Err(access_errors::TYPE_INCONSISTENT),
        }
    }

    fn write_entry_id(
        &mut self,
        a: AssocNo,
        foreign: bool,
        value: &Value,
        kept: Retained,
    ) -> Result<Effect, u8>
        ensures answer { result ≡ answer_to a foreign comps.EntryID value.now
            (names_nothing kept false comps.EntryID value.now) self.old }
        ensures written { OnOk result (self.new ≡ attributes_written a
            [] comps.EntryID value.now kept.front self.old) }
        ensures unchanged { OnErr result (self.new ≡ self.old) }
    {
        match value {
            Value::Octets(octets) => self.resume_at(a, foreign, octets.as_slice(), kept),
            _ => Err(access_errors::TYPE_INCONSISTENT),
        }
    }

    fn purge(&self, foreign: bool, on: bool) -> Result<Effect, u8>
        ensures { result ≡ answer_to anyone foreign comps.PurgeBuf (kinds.Bool on) false self.now }
    {
        if foreign || self.enabler.is_some() {
            return Err(access_errors::TEMPORARILY_UNAVAILABLE);
        }
        if on {
            Ok(Effect::Purge)
        } else {
            Ok(Effect::Nothing)
        }
    }

    fn write_purge_buf(&self, foreign: bool, value: &Value) -> Result<Effect, u8>
        ensures { result ≡ answer_to anyone foreign comps.PurgeBuf value.now false self.now }
    {
        match value {
            Value::Bool(on) => self.purge(foreign, *on),
            _ => Err(access_errors::TYPE_INCONSISTENT),
        }
    }

    fn interrogate(&self, a: AssocNo, foreign: bool, on: bool) -> Result<Effect, u8>
        ensures { result ≡ answer_to a foreign comps.GI (kinds.Bool on) false self.now }
    {
        if !on {
            return if foreign || self.is_enabled_by_another(a) {
                Err(access_errors::TEMPORARILY_UNAVAILABLE)
            } else {
                Ok(Effect::Nothing)
            };
        }
        if foreign || !self.is_enabled_by(a) {
            return Err(access_errors::TEMPORARILY_UNAVAILABLE);
        }
        if !bit(5, self.options.trg_ops()) {
            return Err(access_errors::OBJECT_ATTRIBUTE_INCONSISTENT);
        }
        Ok(Effect::General)
    }

    fn write_gi(&self, a: AssocNo, foreign: bool, value: &Value) -> Result<Effect, u8>
        ensures { result ≡ answer_to a foreign comps.GI value.now false self.now }
    {
        match value {
            Value::Bool(on) => self.interrogate(a, foreign, *on),
            _ => Err(access_errors::TYPE_INCONSISTENT),
        }
    }

    /// A ResvTms of n seconds; what it makes of the reservation comes after.
    fn write_resv_tms(&self, a: AssocNo, foreign: bool, value: &Value) -> Result<Effect, u8>
        ensures { result ≡ answer_to a foreign comps.ResvTms value.now
            (model.names_nothing 0 0 false comps.ResvTms value.now) self.now }
    {
        let Value::Int(seconds) = value else {
            return Err(access_errors::TYPE_INCONSISTENT);
        };
        if foreign || self.is_enabled_by_another(a) {
            return Err(access_errors::TEMPORARILY_UNAVAILABLE);
        }
        if *seconds < 0 || *seconds > 32767 {
            return Err(access_errors::OBJECT_VALUE_INVALID);
        }
        Ok(Effect::Nothing)
    }

    /// At this moment it is reserved for another address.
    fn is_reserved_for_another(&self, owner: &Owner, now: Moment) -> bool
        ensures { result ≡ is_foreign owner.now now self.now }
    {
        match &self.reservation {
            Some(reserved) => !reserved.is_run_out(now) && reserved.is_for_another(owner),
            None => false,
        }
    }

    /// A reservation that has run out ends.
    fn let_run_out(&mut self, now: Moment)
        ensures { self.new ≡ record self.old { reservation = lasting now self.old.reservation } }
    {
        let is_out = match &self.reservation {
            Some(reserved) => reserved.is_run_out(now),
            None => false,
        };
        if is_out {
            self.reservation = None;
        }
    }

    /// What an accepted write makes of the reservation.
    fn reserve(&mut self, a: AssocNo, owner: &Owner, now: Moment, comp: Comp, value: &Value)
        requires number { (1 ≤ a.0) × (a.0 ≤ 64) }
        requires accepted { IsAcceptedFor comp value.now }
        ensures { self.new ≡ record self.old {
          reservation = reservation_by now a.0 owner.now comp
              value.now (lasting now self.old.reservation);
        } }
    {
        if let (Comp::ResvTms, Value::Int(seconds)) = (comp, value) {
            self.reservation = if *seconds > 0 {
                Some(Reserved::by(a, owner, *seconds as u16, now))
            } else {
                None
            };
            return;
        }
        self.let_run_out(now);
        if let Some(reserved) = &mut self.reservation {
            reserved.wrote(a);
        }
    }

    fn write_attribute(
        &mut self,
        a: AssocNo,
        owner: &Owner,
        foreign: bool,
        comp: Comp,
        value: &Value,
        kept: Retained,
        known: bool,
    ) -> Result<Effect, u8>
        ensures answer { result ≡ answer_to a foreign comp value.now
            (names_nothing kept known comp value.now) self.old }
        ensures written { OnOk result
            (self.new ≡ attributes_written a owner.now comp value.now kept.front self.old) }
        ensures unchanged { OnErr result (self.new ≡ self.old) }
    {
        match comp {
            Comp::RptID => self.write_rpt_id(foreign, value),
            Comp::RptEna => self.write_rpt_ena(a, owner, foreign, value),
            Comp::DatSet => self.write_dat_set(foreign, value, known),
            Comp::ConfRev => Err(number_refusal(value)),
            Comp::OptFlds => self.write_opt_flds(foreign, value),
            Comp::BufTm => self.write_buf_tm(foreign, value),
            Comp::SqNum => Err(number_refusal(value)),
            Comp::TrgOps => self.write_trg_ops(foreign, value),
            Comp::IntgPd => self.write_intg_pd(foreign, value),
            Comp::GI => self.write_gi(a, foreign, value),
            Comp::PurgeBuf => self.write_purge_buf(foreign, value),
            Comp::EntryID => self.write_entry_id(a, foreign, value, kept),
            Comp::TimeofEntry => Err(stamp_refusal(value)),
            Comp::ResvTms => self.write_resv_tms(a, foreign, value),
            Comp::Owner => Err(owner_refusal(value)),
        }
    }

    /// Writes a component for an association; returns what that brings about besides, or the code of the first refusal:
    ///
    /// - 7 where the value is of another type, a bit string of another length, or an EntryID not of eight octets;
    /// - 3 where the component is ConfRev, SqNum, TimeofEntry or Owner;
    /// - 2 where the block is reserved for another address than `owner`, the writer's, and where it is held: RptEna and ResvTms
    ///   where another association has enabled the block, GI TRUE where the writer hasn't, GI FALSE where another has, all else
    ///   where any has;
    /// - 8 for RptEna TRUE with an empty DatSet, and for GI TRUE where bit 5 of TrgOps is unset;
    /// - 11 where a number is above 4294967295 or a text longer than 129 octets, for a DatSet that is neither empty nor
    ///   `known`, which says that it names a set, for an EntryID that is neither zero nor of a retained entry,
    ///   and for a ResvTms below 0 or above 32767.
    ///
    /// `kept` says which entries are retained. A refused write changes nothing. It takes no memory.
    pub fn write(
        &mut self,
        a: AssocNo,
        owner: &Owner,
        now: Moment,
        comp: Comp,
        value: &Value,
        kept: Retained,
        known: bool,
    ) -> Result<Effect, u8>
        requires { (1 ≤ a.0) × (a.0 ≤ 64) }
        ensures answer { result ≡ answer_to a (is_foreign owner.now now self.old) comp value.now
            (names_nothing kept known comp value.now) self.old }
        ensures written { OnOk result
            (self.new ≡ written a owner.now now comp value.now kept.front self.old) }
        ensures unchanged { OnErr result (self.new ≡ self.old) }
    {
        let foreign = self.is_reserved_for_another(owner, now);
        match self.write_attribute(a, owner, foreign, comp, value, kept, known) {
            Ok(effect) => {
                self.reserve(a, owner, now, comp, value);
                Ok(effect)
            }
            Err(code) => Err(code),
        }
    }
}
