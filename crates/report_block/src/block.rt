//! One report block: its attributes, its buffer, what it has gathered, and the number of its data set.

ghost use Rattle.std.specs.Prelude.{◌≡◌};
ghost use Rattle.report_block.specs.Writes.{moved as moved_down, set_after as set_number};

use crate::entry_octets::put_note;
use bay_model::{Comp, Mention};
use bay_rooms::Fixed;
use brcb_state::{Block, Effect, Retained};
use entry_ring::Ring;
use set_view::SetView;
use std::alloc::{AllocError, Global};
use sv_base::{AssocNo, BlockDef, Moment};
use value_store::Store;
use window_core::Window;

/// A report block: its attributes, its retained entries, the open group of its events, the number of its data set, where it has
/// one, and the moment from which its integrity periods count, from the first point on.
#[derive(Drop)]
pub struct ReportBlock {
    pub(crate) block: Block,
    pub(crate) set: Option<usize>,
    pub(crate) ring: Ring,
    pub(crate) window: Window,
    pub(crate) origin: Option<Moment>,
}

/// The number of the data set after an accepted write.
pub(crate) fn set_after(comp: Comp, named: Option<usize>, was: Option<usize>) -> Option<usize>
    ensures { result ≡ set_number comp named was }
{
    match comp {
        Comp::DatSet => named,
        _ => was,
    }
}

/// The number of a data set after that of another was deleted.
fn moved(set: Option<usize>, gone: usize) -> Option<usize>
    ensures { result ≡ moved_down gone set }
{
    match set {
        Some(number) => Some(if gone < number { number - 1 } else { number }),
        None => None,
    }
}

impl ReportBlock {
    ghost use Rattle.std.specs.Prelude.{◌≡◌, ◌≤◌, ◌*◌, ◌==◌, not, false, length, None, Some, IfOk};
    ghost use Rattle.std.specs.Prelude.{if◌then◌else◌};
    ghost use Rattle.std.specs.List.{All};
    ghost use Rattle.bay_model.specs.Configured.{block_defined};
    ghost use Rattle.bay_model.specs.Reports.{report_id as report_id_of};
    ghost use Rattle.brcb_state.specs.Changes.{configured};
    ghost use Rattle.brcb_state.specs.Components.{trg_of};
    ghost use Rattle.entry_ring.specs.Standing.{empty};
    ghost use Rattle.entry_ring.specs.Ringed.{after_purge};
    ghost use Rattle.window_core.specs.Windows.{empty as empty_window, closed};
    ghost use Rattle.window_core.specs.Standing.{body_of};
    ghost use Rattle.report_block.specs.Coming.{after_bodies};
    ghost use Rattle.report_block.specs.EntryOctets.{IsKeepable};
    ghost use Rattle.report_block.specs.Events.{with_note};
    ghost use Rattle.report_block.specs.Writes.{settled, lost_by, renumbered, reported_by};

    /// A block as it is configured, with the data set of this number, no entry and nothing gathered. It takes all the memory that it
    /// needs, its entries' and that of a group of n members, as many as any data set has.
    pub fn open(
        alloc: Global,
        def: &BlockDef,
        set: Option<usize>,
        most: u32,
    ) -> Result<ReportBlock, AllocError>
        requires opt_flds { length def.now.opt_flds ≡ 10 }
        requires trg_ops { length def.now.trg_ops ≡ 6 }
        requires few { most ≤ 256 }
        ensures block { IfOk result (λ p. p.block ≡ configured (block_defined def.now)) }
        ensures ring { IfOk result (λ p. p.ring ≡ empty def.now.capacity) }
        ensures window { IfOk result (λ p. p.window ≡ empty_window most def.now.buf_tm) }
        ensures origin { IfOk result (λ p. p.origin ≡ None) }
        ensures set { IfOk result (λ p. p.set ≡ set) }
    {
        Ok(ReportBlock {
            block: Block::open(alloc, def)?,
            set,
            ring: Ring::open(alloc, def.capacity)?,
            window: Window::open(alloc, most, def.buf_tm)?,
            origin: None,
        })
    }

    /// The number of its data set; none where it has none.
    pub fn set(&self) -> Option<usize>
        ensures { result ≡ self.now.set }
    {
        self.set
    }

    /// The reference of the data set that it reports (IEC 61850-7-2, BRCB attribute DatSet); empty where it reports none.
    pub fn dat_set(&self) -> &[u8]
        ensures { result.now ≡ self.now.block.options.dat_set }
    {
        self.block.dat_set()
    }

    /// The id that its reports carry (IEC 61850-7-2, BRCB attribute RptID), or else its reference.
    pub fn report_id(&self) -> &[u8]
        ensures { result.now ≡ report_id_of self.now.block.options.rpt_id self.now.block.reference }
    {
        self.block.report_id()
    }

    /// Which optional fields its reports have, ten bits (IEC 61850-7-2, BRCB attribute OptFlds).
    pub fn opt_flds(&self) -> &[bool]
        ensures value { result.now ≡ self.now.block.options.opt_flds }
        ensures ten { length result.now ≡ 10 }
    {
        self.block.opt_flds()
    }

    /// The revision of its configuration (IEC 61850-7-2, BRCB attribute ConfRev).
    pub fn conf_rev(&self) -> u32
        ensures { result ≡ self.now.block.revision }
    {
        self.block.conf_rev()
    }

    /// The data set of a number was deleted, which isn't the block's own: the numbers above move down by one.
    pub fn renumber(&mut self, gone: usize)
        ensures { self.new ≡ renumbered gone self.old }
    {
        self.set = moved(self.set, gone);
    }

    /// It gathers its events, since BufTm isn't 0. Where it doesn't, nothing is gathered (IEC 61850-7-2, BRCB attribute BufTm).
    pub fn gathers(&self) -> bool
        ensures value { result ≡ not (self.now.window.buf_tm == 0) }
        ensures none { result ≡ false → self.now.window.gathered ≡ None }
    {
        self.window.buf_tm() != 0
    }

    /// Bits 1 to 5 of TrgOps.
    pub fn trg(&self) -> bay_model::Trg
        ensures { result ≡ trg_of self.now.block.options.trg_ops }
    {
        self.block.trg()
    }

    /// Which entries are retained.
    pub(crate) fn retained(&self) -> Retained
        ensures { result ≡ record { front = self.now.ring.front; len = self.now.ring.newest } }
    {
        Retained {
            front: self.ring.front(),
            len: self.ring.len(),
        }
    }

    /// Keeps the entry of an event's note at once, if there is a member in it, where BufTm is 0. The members are those of this
    /// data set. Its octets come to stand in `octets`. It takes no memory.
    pub fn keep_at_once(
        &mut self,
        store: &Store,
        set: &SetView<'_>,
        now: Moment,
        step: u64,
        note: &[Mention],
        octets: &mut Fixed,
    )
        requires members { All (IsKeepable store.now set.now) note.now }
        requires room { 504 * length note.now ≤ octets.old.room }
        ensures part { self.new ≡ with_note store.now set.now now step note.now self.old }
        ensures room { octets.new.room ≡ octets.old.room }
    {
        if !note.is_empty() {
            put_note(store, set, note, octets);
            self.ring.append(now, step, octets.as_slice());
        }
    }

    /// Closes what is gathered, and keeps its entry.
    pub(crate) fn close(&mut self, step: u64, octets: &mut Fixed)
        requires room { 504 * self.old.window.members ≤ octets.old.room }
        ensures closed { self.new ≡ record self.old {
          window = closed self.old.window;
          ring = after_bodies self.old.ring
              (body_of step self.old.window.gathered);
        } }
        ensures room { octets.new.room ≡ octets.old.room }
    {
        if let Some(moment) = self.window.close(octets) {
            self.ring.append(moment, step, octets.as_slice());
        }
    }

    /// What an accepted write makes of the rest.
    pub(crate) fn settle(&mut self, effect: Effect, now: Moment, step: u64, octets: &mut Fixed)
        requires room { 504 * self.old.window.members ≤ octets.old.room }
        ensures settled { self.new ≡ settled now step effect self.old }
        ensures room { octets.new.room ≡ octets.old.room }
    {
        match effect {
            Effect::Purge => self.purge(step, octets),
            Effect::PurgingChange => {
                self.purge(step, octets);
                self.origin = Some(now);
            }
            _ => (),
        }
    }

    /// Empties the buffer, once what is gathered has closed.
    fn purge(&mut self, step: u64, octets: &mut Fixed)
        requires room { 504 * self.old.window.members ≤ octets.old.room }
        ensures purged { self.new ≡ record self.old {
          window = empty_window self.old.window.members self.old.block.options.buf_tm;
          ring = after_purge
              (after_bodies self.old.ring (body_of step self.old.window.gathered));
        } }
        ensures room { octets.new.room ≡ octets.old.room }
    {
        self.close(step, octets);
        self.ring.purge();
        self.window.set_time(self.block.buf_tm());
    }

    /// An association was lost: what it has enabled it enables no longer.
    pub fn lost(&mut self, a: AssocNo, now: Moment)
        requires { (1 ≤ a.0) × (a.0 ≤ 64) }
        ensures { self.new ≡ lost_by a now self.old }
    {
        self.block.lost(a, now);
    }

    /// The entry of this number was reported.
    pub fn sent(&mut self, id: u64)
        ensures { self.new ≡ reported_by id self.old }
    {
        self.block.sent(id);
    }
}
