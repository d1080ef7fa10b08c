//! What clients make of setting groups (IEC 61850-7-2, SelectActiveSG, SelectEditSG, SetEditSGValue and ConfirmEditSGValues).

use crate::bay::Bay;
use bay_model::SettingComp;
use block_events::{Source, event_all};
use sv_base::{AssocNo, Value};

impl Bay {
    ghost use Rattle.std.specs.Prelude.{◌≡◌, ◌<◌, ◌+◌, true, length};
    ghost use Rattle.bay_model.specs.Lookups.{attr_of, groups_of};
    ghost use Rattle.bay_model.specs.Named.{configured_model};
    ghost use Rattle.bay_model.specs.Writes.{write_attribute, write_part};
    ghost use Rattle.object_model.specs.Fits.{is_sound};
    ghost use Rattle.bay_replies.specs.Given.{copies_from};
    ghost use Rattle.bay_core.specs.Asked.{IsKept, IsWrite};

    /// An association writes into the edit copy of the SG attribute at a place among these, at the moment that time has come to. It
    /// takes no memory.
    pub(crate) fn write_copy(&mut self, a: AssocNo, place: usize, value: &Value) -> Result<(), u8>
        requires there { place < length self.old.groups.settings }
        requires sound { is_sound value.now ≡ true }
        ensures kept { IsKept self.old self.new }
        ensures controls { self.new.controls ≡ self.old.controls }
        ensures written { IsWrite self.old self.new (λ m past. write_attribute m a.0
            (copies_from self.old.stored self.old.groups + place) value.now
            (attr_of m (copies_from self.old.stored self.old.groups + place)).access past) result }
    {
        self.groups.write_se(a, place, value)
    }

    /// An association writes a component of the setting group block of a domain, at the moment that time has come to: ActSG, and
    /// CnfEdit where the active group was edited, set all SG attributes of the domain, and each block takes in its event. It takes no
    /// memory.
    pub(crate) fn write_part(
        &mut self,
        a: AssocNo,
        domain: u32,
        part: SettingComp,
        value: &Value,
    ) -> Result<(), u8>
        requires grouped { 0 < (groups_of (configured_model self.old.config) domain).count }
        ensures kept { IsKept self.old self.new }
        ensures controls { self.new.controls ≡ self.old.controls }
        ensures written { IsWrite self.old self.new
            (λ m past. write_part m a.0 domain part value.now past) result }
    {
        if !self.groups.write(domain, a, part, value, self.latest)? {
            return Ok(());
        }
        self.changes.clear();
        self.values
            .load(&self.model, &self.groups, domain, &mut self.changes);
        let source = Source {
            store: self.values.store(),
            book: &self.sets,
            rows: self.model.nodes().as_slice(),
        };
        event_all(
            &mut self.parts,
            &mut self.dues,
            &mut self.watch,
            &source,
            self.changes.as_slice(),
            self.latest,
            self.steps,
            &mut self.events,
            &mut self.octets,
        );
        Ok(())
    }
}
