//! The components of setting group blocks, as clients read and write them (IEC 61850-7-2, SGCB attributes).

ghost use Rattle.std.specs.Prelude.{◌≡◌, if◌then◌else◌};
ghost use Rattle.std.specs.Option.{option_map_or};
ghost use Rattle.bay_model.specs.ComponentTable.{setting_comp_kind};
ghost use Rattle.bay_model.specs.Components.{utc_of as utc_at, no_utc};
ghost use Rattle.sv_base.specs.Kinds.{is_kind};
ghost use Rattle.bay_model.specs.declared.access_errors.TheConstants.{OBJECT_ACCESS_DENIED};
ghost use Rattle.bay_model.specs.declared.access_errors.TheConstants.{TYPE_INCONSISTENT};

use crate::domain::Domain;
use crate::groups::Groups;
use bay_model::{SettingComp, access_errors};
use bay_rooms::Slot;
use sv_base::{AssocNo, Moment, Utc, Value};

/// A moment as LActTm has it (IEC 61850-7-2, TimeStamp): its seconds, the rest in units of 2^-24 seconds, and ten bits of accuracy.
fn utc_of(moment: Moment) -> Utc
    ensures { result ≡ utc_at moment }
{
    let ms = moment.ms();
    Utc {
        secs: (ms / 1000) as u32,
        frac: ((ms % 1000) * 16777216 / 1000) as u32,
        quality: 10,
    }
}

/// The time of a moment, all zeros where there is none.
fn time_of(moment: Option<Moment>) -> Utc
    ensures { result ≡ option_map_or utc_at moment no_utc }
{
    match moment {
        Some(moment) => utc_of(moment),
        None => Utc {
            secs: 0,
            frac: 0,
            quality: 0,
        },
    }
}

/// Why a component that clients don't write refuses a value.
fn refusal(part: SettingComp, value: &Value) -> u8
    ensures { result ≡ (if is_kind (setting_comp_kind part) value.now then OBJECT_ACCESS_DENIED
        else TYPE_INCONSISTENT) }
{
    match (part, value) {
        (SettingComp::NumOfSG | SettingComp::ActSG | SettingComp::EditSG, Value::Uint(_)) => {
            access_errors::OBJECT_ACCESS_DENIED
        }
        (SettingComp::CnfEdit, Value::Bool(_)) => access_errors::OBJECT_ACCESS_DENIED,
        (SettingComp::LActTm, Value::Time(_)) => access_errors::OBJECT_ACCESS_DENIED,
        _ => access_errors::TYPE_INCONSISTENT,
    }
}

impl Domain {
    ghost use Rattle.std.specs.Prelude.{◌≡◌};
    ghost use Rattle.setting_groups.specs.Parts.{part_read};

    /// What a component reads.
    pub fn read(&self, part: SettingComp) -> Value
        ensures { result ≡ part_read self.now part }
    {
        let numbers = self.numbers();
        match part {
            SettingComp::NumOfSG => Value::Uint(u64::from(numbers.count)),
            SettingComp::ActSG => Value::Uint(u64::from(numbers.active)),
            SettingComp::EditSG => Value::Uint(u64::from(numbers.edit)),
            SettingComp::CnfEdit => Value::Bool(false),
            SettingComp::LActTm => Value::Time(time_of(numbers.last)),
        }
    }
}

impl Groups {
    ghost use Rattle.std.specs.Prelude.{◌≡◌, ◌<◌, OnOk, OnErr, length};
    ghost use Rattle.std.specs.Option.{option_map};
    ghost use Rattle.setting_groups.specs.Grouped.{copy_in, domain_at};
    ghost use Rattle.setting_groups.specs.Parts.{after_part, part_answer, part_read};

    /// What a component of the block of a domain reads.
    pub fn read(&self, domain: u32, part: SettingComp) -> Value
        ensures { result ≡ part_read (domain_at self.now domain) part }
    {
        match self.domains.get(domain as usize) {
            Some(block) => block.read(part),
            None => Domain::new(0, 0).read(part),
        }
    }

    /// What the edit copy of the SG attribute at a place among these holds; none exactly where it isn't there, or nobody holds the
    /// edit.
    pub fn copy_at(&self, place: usize) -> Option<&Slot>
        ensures { option_map (λ s. s.now) result ≡ copy_in self.now place }
    {
        let setting = self.settings.get(place)?;
        let block = self.domains.get(setting.domain() as usize)?;
        if block.is_edited() {
            Some(setting.copy())
        } else {
            None
        }
    }

    /// A client's write of a component of the block of a domain: returns whether the values of the domain's SG attributes are set by it,
    /// as by ActSG, and by CnfEdit where the active group was edited. Refuses, in the order of each, with 7 a value of another kind,
    /// with 3 a component that isn't written, with 2 where another holds the edit or the association doesn't, and with 11 the number
    /// of no group. A refusal leaves all as it was.
    pub fn write(
        &mut self,
        domain: u32,
        a: AssocNo,
        part: SettingComp,
        value: &Value,
        now: Moment,
    ) -> Result<bool, u8>
        requires { domain < length self.old.domains }
        ensures answer { result ≡ part_answer a.0 (domain_at self.old domain) part value.now }
        ensures set { OnOk result (self.new ≡ after_part domain a.0 part value.now now self.old) }
        ensures kept { OnErr result (self.new ≡ self.old) }
    {
        match part {
            SettingComp::ActSG => {
                self.write_act(domain, value, now)?;
                Ok(true)
            }
            SettingComp::EditSG => {
                self.write_edit(domain, a, value)?;
                Ok(false)
            }
            SettingComp::CnfEdit => self.confirm(domain, a, value),
            SettingComp::NumOfSG | SettingComp::LActTm => Err(refusal(part, value)),
        }
    }
}
