//! Writes of the components that a client sets once for many reports (IEC 61850-7-2, SetBRCBValues).

ghost use Rattle.std.specs.Prelude.{◌≡◌, if◌then◌else◌};
ghost use Rattle.brcb_state.specs.declared.told.Effect.TheVariants as effects;
ghost use Rattle.bay_model.specs.declared.access_errors.TheConstants.{TEMPORARILY_UNAVAILABLE};
ghost use Rattle.bay_model.specs.declared.access_errors.TheConstants.{TYPE_INCONSISTENT};
ghost use Rattle.bay_model.specs.declared.access_errors.TheConstants.{OBJECT_VALUE_INVALID};

use crate::block::Block;
use crate::options::MOST;
use crate::told::Effect;
use crate::writes::is_empty;
use bay_model::access_errors;
use sv_base::Value;

/// What an accepted write brings about, where it is or isn't a change.
fn purging(differs: bool) -> Effect
    ensures { result ≡ (if differs then effects.PurgingChange else effects.Nothing) }
{
    if differs {
        Effect::PurgingChange
    } else {
        Effect::Nothing
    }
}

impl Block {
    ghost use Rattle.std.specs.Prelude.{◌≡◌, ◌==◌, ◌&&◌, ◌||◌, ◌^◌, ◌<◌, not, nat_lt, nat_le};
    ghost use Rattle.std.specs.Prelude.{length, ℕ, Bool, false, is_none, is_some, Result, Ok};
    ghost use Rattle.std.specs.Prelude.{[], Err, OnOk, OnErr, if◌then◌else◌};
    ghost use Rattle.sv_base.specs.declared.value.Value.TheVariants as kinds;
    ghost use Rattle.sv_base.specs.declared.components.Comp.TheVariants as comps;
    ghost use Rattle.bay_model.specs.Parameters.{next_revision};
    ghost use Rattle.brcb_state.specs.declared.told.Effect.TheVariants as effects;
    ghost use Rattle.brcb_state.specs.Changes.{attributes_written, effect_of};
    ghost use Rattle.bay_model.specs.BlockWrites.{names_nothing};
    ghost use Rattle.brcb_state.specs.Refusals.{answer_to, anyone};

    fn set_rpt_id(&mut self, foreign: bool, text: &[u8]) -> Result<Effect, u8>
        ensures answer { result ≡ answer_to anyone foreign comps.RptID
            (kinds.Text text.now) false self.old }
        ensures written { OnOk result (self.new ≡ attributes_written anyone [] comps.RptID
            (kinds.Text text.now) 0 self.old) }
        ensures unchanged { OnErr result (self.new ≡ self.old) }
    {
        if foreign || self.enabler.is_some() {
            return Err(access_errors::TEMPORARILY_UNAVAILABLE);
        }
        if text.len() > MOST {
            return Err(access_errors::OBJECT_VALUE_INVALID);
        }
        let differs = self.options.set_rpt_id(text);
        Ok(purging(differs))
    }

    pub(crate) fn write_rpt_id(&mut self, foreign: bool, value: &Value) -> Result<Effect, u8>
        ensures answer { result ≡ answer_to anyone foreign comps.RptID value.now false self.old }
        ensures written { OnOk result (self.new ≡ attributes_written anyone
            [] comps.RptID value.now 0 self.old) }
        ensures unchanged { OnErr result (self.new ≡ self.old) }
    {
        match value {
            Value::Text(text) => self.set_rpt_id(foreign, text.as_slice()),
            _ => Err(access_errors::TYPE_INCONSISTENT),
        }
    }

    /// ConfRev after a write of DatSet.
    fn revision_after(&self, differs: bool) -> u32
        ensures { result ≡ (if differs then next_revision self.now.revision
            else self.now.revision) }
    {
        if !differs {
            self.revision
        } else if self.revision == u32::MAX {
            1
        } else {
            self.revision + 1
        }
    }

    fn set_dat_set(&mut self, foreign: bool, text: &[u8], known: bool) -> Result<Effect, u8>
        ensures answer { result ≡ answer_to anyone foreign comps.DatSet (kinds.Text text.now)
            (names_nothing 0 0 known comps.DatSet (kinds.Text text.now)) self.old }
        ensures written { OnOk result (self.new ≡ attributes_written anyone [] comps.DatSet
            (kinds.Text text.now) 0 self.old) }
        ensures unchanged { OnErr result (self.new ≡ self.old) }
    {
        if foreign || self.enabler.is_some() {
            return Err(access_errors::TEMPORARILY_UNAVAILABLE);
        }
        if text.len() > MOST || !(is_empty(text) || known) {
            return Err(access_errors::OBJECT_VALUE_INVALID);
        }
        let differs = self.options.set_dat_set(text);
        self.revision = self.revision_after(differs);
        Ok(purging(differs))
    }

    pub(crate) fn write_dat_set(
        &mut self,
        foreign: bool,
        value: &Value,
        known: bool,
    ) -> Result<Effect, u8>
        ensures answer { result ≡ answer_to anyone foreign comps.DatSet value.now
            (names_nothing 0 0 known comps.DatSet value.now) self.old }
        ensures written { OnOk result (self.new ≡ attributes_written anyone
            [] comps.DatSet value.now 0 self.old) }
        ensures unchanged { OnErr result (self.new ≡ self.old) }
    {
        match value {
            Value::Text(text) => self.set_dat_set(foreign, text.as_slice(), known),
            _ => Err(access_errors::TYPE_INCONSISTENT),
        }
    }

    /// Takes bits of this number, for a block that isn't held.
    fn take_bits(&self, foreign: bool, bits: &[bool], count: usize) -> Result<(), u8>
        ensures { result ≡ (if not (length bits.now == count) then Err TYPE_INCONSISTENT
            else if foreign || is_some self.now.enabler
            then Err TEMPORARILY_UNAVAILABLE else Ok tt) }
    {
        if bits.len() != count {
            return Err(access_errors::TYPE_INCONSISTENT);
        }
        if foreign || self.enabler.is_some() {
            return Err(access_errors::TEMPORARILY_UNAVAILABLE);
        }
        Ok(())
    }

    fn set_opt_flds(&mut self, foreign: bool, bits: &[bool]) -> Result<Effect, u8>
        ensures answer { result ≡ answer_to anyone foreign comps.OptFlds
            (kinds.Bits bits.now) false self.old }
        ensures written { OnOk result (self.new ≡ attributes_written anyone [] comps.OptFlds
            (kinds.Bits bits.now) 0 self.old) }
        ensures unchanged { OnErr result (self.new ≡ self.old) }
    {
        self.take_bits(foreign, bits, 10)?;
        self.options.set_opt_flds(bits);
        Ok(Effect::Nothing)
    }

    pub(crate) fn write_opt_flds(&mut self, foreign: bool, value: &Value) -> Result<Effect, u8>
        ensures answer { result ≡ answer_to anyone foreign comps.OptFlds value.now false self.old }
        ensures written { OnOk result (self.new ≡ attributes_written anyone
            [] comps.OptFlds value.now 0 self.old) }
        ensures unchanged { OnErr result (self.new ≡ self.old) }
    {
        match value {
            Value::Bits(bits) => self.set_opt_flds(foreign, bits.as_slice()),
            _ => Err(access_errors::TYPE_INCONSISTENT),
        }
    }

    fn set_trg_ops(&mut self, foreign: bool, bits: &[bool]) -> Result<Effect, u8>
        ensures answer { result ≡ answer_to anyone foreign comps.TrgOps
            (kinds.Bits bits.now) false self.old }
        ensures written { OnOk result (self.new ≡ attributes_written anyone [] comps.TrgOps
            (kinds.Bits bits.now) 0 self.old) }
        ensures unchanged { OnErr result (self.new ≡ self.old) }
    {
        self.take_bits(foreign, bits, 6)?;
        let differs = self.options.set_trg_ops(bits);
        Ok(purging(differs))
    }

    pub(crate) fn write_trg_ops(&mut self, foreign: bool, value: &Value) -> Result<Effect, u8>
        ensures answer { result ≡ answer_to anyone foreign comps.TrgOps value.now false self.old }
        ensures written { OnOk result (self.new ≡ attributes_written anyone
            [] comps.TrgOps value.now 0 self.old) }
        ensures unchanged { OnErr result (self.new ≡ self.old) }
    {
        match value {
            Value::Bits(bits) => self.set_trg_ops(foreign, bits.as_slice()),
            _ => Err(access_errors::TYPE_INCONSISTENT),
        }
    }

    /// A number of 32 bits, for a block that isn't held.
    fn number(&self, foreign: bool, n: u64) -> Result<u32, u8>
        ensures { result ≡ (if foreign || is_some self.now.enabler then Err TEMPORARILY_UNAVAILABLE
            else if nat_lt n (2 ^ 32) then Ok n else Err OBJECT_VALUE_INVALID) }
    {
        if foreign || self.enabler.is_some() {
            return Err(access_errors::TEMPORARILY_UNAVAILABLE);
        }
        if n > u32::MAX as u64 {
            return Err(access_errors::OBJECT_VALUE_INVALID);
        }
        Ok(n as u32)
    }

    fn set_buf_tm(&mut self, foreign: bool, n: u64) -> Result<Effect, u8>
        ensures answer { result ≡ answer_to anyone foreign comps.BufTm
            (kinds.Uint n) false self.old }
        ensures written { OnOk result (self.new ≡ attributes_written anyone [] comps.BufTm
            (kinds.Uint n) 0 self.old) }
        ensures unchanged { OnErr result (self.new ≡ self.old) }
    {
        let n = self.number(foreign, n)?;
        let differs = self.options.set_buf_tm(n);
        Ok(purging(differs))
    }

    pub(crate) fn write_buf_tm(&mut self, foreign: bool, value: &Value) -> Result<Effect, u8>
        ensures answer { result ≡ answer_to anyone foreign comps.BufTm value.now false self.old }
        ensures written { OnOk result (self.new ≡ attributes_written anyone
            [] comps.BufTm value.now 0 self.old) }
        ensures unchanged { OnErr result (self.new ≡ self.old) }
    {
        match value {
            Value::Uint(n) => self.set_buf_tm(foreign, *n),
            _ => Err(access_errors::TYPE_INCONSISTENT),
        }
    }

    fn set_intg_pd(&mut self, foreign: bool, n: u64) -> Result<Effect, u8>
        ensures answer { result ≡ answer_to anyone foreign comps.IntgPd
            (kinds.Uint n) false self.old }
        ensures written { OnOk result (self.new ≡ attributes_written anyone [] comps.IntgPd
            (kinds.Uint n) 0 self.old) }
        ensures unchanged { OnErr result (self.new ≡ self.old) }
    {
        let n = self.number(foreign, n)?;
        let differs = self.options.set_intg_pd(n);
        Ok(purging(differs))
    }

    pub(crate) fn write_intg_pd(&mut self, foreign: bool, value: &Value) -> Result<Effect, u8>
        ensures answer { result ≡ answer_to anyone foreign comps.IntgPd value.now false self.old }
        ensures written { OnOk result (self.new ≡ attributes_written anyone
            [] comps.IntgPd value.now 0 self.old) }
        ensures unchanged { OnErr result (self.new ≡ self.old) }
    {
        match value {
            Value::Uint(n) => self.set_intg_pd(foreign, *n),
            _ => Err(access_errors::TYPE_INCONSISTENT),
        }
    }
}
