//! What time brings: what is over closes, and an integrity entry comes where a period ended (IEC 61850-7-2, BRCB attributes BufTm
//! and IntgPd).

ghost use Rattle.std.specs.Prelude.{◌≡◌};
ghost use Rattle.report_block.specs.Due.{earliest as earliest_of};

use crate::block::ReportBlock;
use crate::entry_octets::put_all;
use bay_model::Reasons;
use bay_rooms::Fixed;
use set_view::SetView;
use sv_base::Moment;
use value_store::Store;

/// The reason of an integrity entry.
const INTEGRITY: Reasons = Reasons {
    dchg: false,
    qchg: false,
    dupd: false,
    intg: true,
    gi: false,
};

/// The earlier of two moments in milliseconds since 1970, where there are any.
pub fn earliest(one: Option<u64>, other: Option<u64>) -> Option<u64>
    ensures { result ≡ earliest_of one other }
{
    match (one, other) {
        (Some(one), Some(other)) => Some(one.min(other)),
        (Some(one), None) => Some(one),
        (None, other) => other,
    }
}

impl ReportBlock {
    ghost use Rattle.std.specs.Prelude.{◌≡◌, ◌≤◌, ◌*◌, [], ◌∷◌, length};
    ghost use Rattle.std.specs.List.{All};
    ghost use Rattle.window_core.specs.Windows.{after_time, over_at};
    ghost use Rattle.window_core.specs.Standing.{body_of};
    ghost use Rattle.report_block.specs.Alls.{all_pieces, for_integrity};
    ghost use Rattle.report_block.specs.Coming.{after_bodies, arrived, body_at};
    ghost use Rattle.report_block.specs.Coming.{is_due as is_due_in, origin_after};
    ghost use Rattle.report_block.specs.Due.{due_at as due_in, has_entries};
    ghost use Rattle.report_block.specs.Due.{next_integrity as next_integrity_in};
    ghost use Rattle.report_block.specs.EntryOctets.{IsWritable};

    /// The end of a period brings an entry: there is a data set, and TrgOps bit 4.
    fn has_integrity(&self) -> bool
        ensures { result ≡ has_entries self.now.block.options }
    {
        !matches!(self.block.dat_set(), []) && self.block.trg().intg
    }

    /// An integrity period ended between two moments.
    pub(crate) fn is_due(&self, was: Moment, now: Moment) -> bool
        ensures { result ≡ is_due_in was now self.now }
    {
        let period = u64::from(self.block.period());
        if period == 0 {
            return false;
        }
        match self.origin {
            Some(origin) => {
                let passed = was.ms().saturating_sub(origin.ms()) / period;
                let ended = now.ms().saturating_sub(origin.ms()) / period;
                self.has_integrity() && passed < ended
            }
            None => false,
        }
    }

    /// Keeps the entry of all members of its data set for one reason.
    pub(crate) fn keep_all(
        &mut self,
        store: &Store,
        set: &SetView<'_>,
        reasons: Reasons,
        now: Moment,
        step: u64,
        octets: &mut Fixed,
    )
        requires few { length set.now ≤ 256 }
        requires members { All (IsWritable store.now) set.now }
        requires room { 504 * length set.now ≤ octets.old.room }
        ensures kept { self.new ≡ record self.old {
          ring = after_bodies self.old.ring
              (body_at now step (all_pieces store.now set.now reasons) ∷ []);
        } }
        ensures room { octets.new.room ≡ octets.old.room }
    {
        put_all(store, set, reasons, octets);
        self.ring.append(now, step, octets.as_slice());
    }

    /// Closes what is over, and keeps its entry.
    fn expire(&mut self, now: Moment, step: u64, octets: &mut Fixed)
        requires room { 504 * self.old.window.members ≤ octets.old.room }
        ensures expired { self.new ≡ record self.old {
          window = after_time now self.old.window;
          ring = after_bodies self.old.ring
              (body_of step (over_at now self.old.window));
        } }
        ensures room { octets.new.room ≡ octets.old.room }
    {
        if let Some(moment) = self.window.advance(now, octets) {
            self.ring.append(moment, step, octets.as_slice());
        }
    }

    /// The integrity periods count from now on, where they have no origin yet.
    fn begin_periods(&mut self, now: Moment)
        ensures { self.new ≡ record self.old { origin = origin_after now self.old } }
    {
        if self.block.period() != 0 {
            self.origin = Some(self.origin.unwrap_or(now));
        }
    }

    /// Time has passed between two moments, of which the later is that of the step that is made: what is over closes. Where an
    /// integrity period ended all that is gathered closes, and the entry of all members of the data set follows, with the values
    /// that they have by now, one entry however many periods ended. What closes is put into `octets`. It takes no memory.
    pub fn pass(
        &mut self,
        store: &Store,
        set: &SetView<'_>,
        was: Moment,
        now: Moment,
        step: u64,
        octets: &mut Fixed,
    )
        requires few { length set.now ≤ 256 }
        requires members { All (IsWritable store.now) set.now }
        requires room { 504 * length set.now ≤ octets.old.room }
        requires window { 504 * self.old.window.members ≤ octets.old.room }
        ensures passed { self.new ≡ arrived was now step
            (all_pieces store.now set.now for_integrity) self.old }
        ensures room { octets.new.room ≡ octets.old.room }
    {
        if self.is_due(was, now) {
            self.close(step, octets);
            self.keep_all(store, set, INTEGRITY, now, step, octets);
        } else {
            self.expire(now, step, octets);
        }
        self.begin_periods(now);
    }

    /// The next integrity entry after a moment, in milliseconds since 1970.
    fn next_integrity(&self, was: Moment) -> Option<u64>
        ensures { result ≡ next_integrity_in was self.now }
    {
        let period = u64::from(self.block.period());
        if period == 0 {
            return None;
        }
        let Some(origin) = self.origin else {
            return Some(0);
        };
        if !self.has_integrity() {
            return None;
        }
        let passed = was.ms().saturating_sub(origin.ms()) / period;
        Some(origin.ms() + (passed + 1) * period)
    }

    /// The least moment after a moment, in milliseconds since 1970, at which the block has something due: what is gathered is
    /// over, or an integrity period ends; none where nothing will be. Before it time leaves the block as it is.
    pub fn due_at(&self, was: Moment) -> Option<u64>
        ensures { result ≡ due_in was self.now }
    {
        earliest(self.window.end(), self.next_integrity(was))
    }
}
