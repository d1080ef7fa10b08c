//! Writes of any component of a report block, with what they bring about (IEC 61850-7-2, SetBRCBValues).

use crate::block::{ReportBlock, set_after};
use bay_model::{Comp, Reasons};
use bay_rooms::Fixed;
use brcb_state::Effect;
use set_view::SetView;
use sv_base::{AssocNo, Moment, Owner, Value};
use value_store::Store;

/// The reason of the entry of a general interrogation.
const GENERAL: Reasons = Reasons {
    dchg: false,
    qchg: false,
    dupd: false,
    intg: false,
    gi: true,
};

/// A write of a component by an association of this address; where that is DatSet, with the number of the data set that the value names.
#[derive(Clone, Copy, Debug)]
pub struct Written<'a> {
    pub by: AssocNo,
    pub owner: Owner,
    pub comp: Comp,
    pub value: &'a Value,
    pub named: Option<usize>,
}

impl ReportBlock {
    ghost use Rattle.std.specs.Prelude.{◌≡◌, ◌≤◌, ◌*◌, ◌++◌, [], ◌∷◌, length};
    ghost use Rattle.std.specs.List.{All};
    ghost use Rattle.window_core.specs.Standing.{body_of};
    ghost use Rattle.window_core.specs.Windows.{empty as empty_window};
    ghost use Rattle.report_block.specs.Alls.{all_pieces, for_general};
    ghost use Rattle.report_block.specs.Coming.{after_bodies, body_at};
    ghost use Rattle.report_block.specs.EntryOctets.{IsWritable};
    ghost use Rattle.report_block.specs.Writes.{without_effect};
    ghost use Rattle.report_block.specs.Components.{any_answer, after_any, brought};

    /// A general interrogation: what is gathered closes, and the entry of all members of the data set follows.
    fn interrogate(
        &mut self,
        store: &Store,
        set: &SetView<'_>,
        now: Moment,
        step: u64,
        octets: &mut Fixed,
    )
        requires few { length set.now ≤ 256 }
        requires members { All (IsWritable store.now) set.now }
        requires room { 504 * length set.now ≤ octets.old.room }
        requires window { 504 * self.old.window.members ≤ octets.old.room }
        ensures interrogated { self.new ≡ record self.old {
          window = empty_window self.old.window.members self.old.block.options.buf_tm;
          ring = after_bodies self.old.ring (body_of step self.old.window.gathered
              ++ body_at now step (all_pieces store.now set.now for_general) ∷ []);
        } }
        ensures room { octets.new.room ≡ octets.old.room }
    {
        self.close(step, octets);
        self.keep_all(store, set, GENERAL, now, step, octets);
        self.window.set_time(self.block.buf_tm());
    }

    /// What an accepted write brings about.
    fn bring(
        &mut self,
        effect: Effect,
        store: &Store,
        set: &SetView<'_>,
        now: Moment,
        step: u64,
        octets: &mut Fixed,
    )
        requires few { length set.now ≤ 256 }
        requires members { All (IsWritable store.now) set.now }
        requires room { 504 * length set.now ≤ octets.old.room }
        requires window { 504 * self.old.window.members ≤ octets.old.room }
        ensures brought { self.new ≡ brought now step
            (all_pieces store.now set.now for_general) effect self.old }
        ensures room { octets.new.room ≡ octets.old.room }
    {
        match effect {
            Effect::General => self.interrogate(store, set, now, step, octets),
            Effect::Purge
            | Effect::PurgingChange
            | Effect::Nothing
            | Effect::Enabled
            | Effect::Disabled => self.settle(effect, now, step, octets),
        }
    }

    /// Writes a component, at the moment and the number of its step; gives the code of the first refusal (IEC 61850-7-2,
    /// SetBRCBValues). A purge closes what is gathered, and empties the buffer. A general interrogation closes what is gathered, and
    /// the entry of all members of the data set follows, with the values that they have. A refused write changes nothing. What
    /// closes is put into `octets`. It takes no memory.
    pub fn write_any(
        &mut self,
        written: &Written<'_>,
        store: &Store,
        set: &SetView<'_>,
        now: Moment,
        step: u64,
        octets: &mut Fixed,
    ) -> Result<(), u8>
        requires number { (1 ≤ written.now.by.0) × (written.now.by.0 ≤ 64) }
        requires few { length set.now ≤ 256 }
        requires members { All (IsWritable store.now) set.now }
        requires room { 504 * length set.now ≤ octets.old.room }
        requires window { 504 * self.old.window.members ≤ octets.old.room }
        ensures answer { result ≡ without_effect (any_answer written.now now self.old) }
        ensures written { self.new ≡ after_any written.now now step
            (all_pieces store.now set.now for_general) self.old
            (any_answer written.now now self.old) }
        ensures room { octets.new.room ≡ octets.old.room }
    {
        let Written {
            by,
            owner,
            comp,
            value,
            ..
        } = *written;
        let (retained, known) = (self.retained(), written.named.is_some());
        match self
            .block
            .write(by, &owner, now, comp, value, retained, known)
        {
            Ok(effect) => {
                self.bring(effect, store, set, now, step, octets);
                self.set = set_after(comp, written.named, self.set);
                Ok(())
            }
            Err(code) => Err(code),
        }
    }
}
