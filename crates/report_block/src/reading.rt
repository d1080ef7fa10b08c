//! What the components of a report block read at the moment of a step that is still to be made (IEC 61850-7-2, GetBRCBValues): the
//! entries that time will bring until then are foretold, and nothing changes.

ghost use Rattle.std.specs.Prelude.{◌≡◌};
ghost use Rattle.report_block.specs.Reading.{with_entry as with_entry_of};
ghost use Rattle.report_block.specs.Reading.{with_group as with_group_of};

use crate::block::ReportBlock;
use bay_model::Comp;
use brcb_state::Retained;
use std::alloc::{AllocError, Global};
use sv_base::{Moment, Value};

/// How many entries there are, and the moment of the newest one, retained or not.
#[derive(Clone, Copy, Debug)]
pub(crate) struct Newest {
    count: u64,
    moment: Option<Moment>,
}

/// With one entry more. After number 2^64 - 1 no further entry comes to be.
fn with_entry(newest: Newest, moment: Moment) -> Newest
    ensures { result ≡ with_entry_of moment newest }
{
    if newest.count == u64::MAX {
        return newest;
    }
    Newest {
        count: newest.count + 1,
        moment: Some(moment),
    }
}

/// With the entry of what closes, whose moment this is, where anything does.
fn with_group(newest: Newest, moment: Option<Moment>) -> Newest
    ensures { result ≡ with_group_of moment newest }
{
    match moment {
        Some(moment) => with_entry(newest, moment),
        None => newest,
    }
}

impl ReportBlock {
    ghost use Rattle.std.specs.Prelude.{◌≡◌, ℕ, max, ◌∷◌, IfOk};
    ghost use Rattle.bay_model.specs.Components.{read_component};
    ghost use Rattle.bay_model.specs.Model.{Model};
    ghost use Rattle.bay_model.specs.Points.{Past, now as moment_at};
    ghost use Rattle.bay_model.specs.Singles.{arrival};
    ghost use Rattle.window_core.specs.Windows.{over_at};
    ghost use Rattle.report_block.specs.Reading.{foretold as foretold_in, moment_of, reading};
    ghost use Rattle.report_block.specs.Standing.{Stands};

    /// The moment of the first of the events that are gathered; none where nothing is.
    fn begun(&self) -> Option<Moment>
        ensures { result ≡ moment_of self.now.window.gathered }
    {
        let end = self.window.end()?;
        Moment::new(end.saturating_sub(u64::from(self.window.buf_tm())))
    }

    /// The same, where the buffer time of what is gathered is over at a moment.
    fn over(&self, now: Moment) -> Option<Moment>
        ensures { result ≡ moment_of (over_at now self.now.window) }
    {
        let end = self.window.end()?;
        if now.ms() < end {
            return None;
        }
        self.begun()
    }

    /// How many entries there will be once time has passed between two moments, and the moment of the newest one.
    fn foretold(&self, was: Moment, now: Moment) -> Newest
        ensures { result ≡ foretold_in was now self.now }
    {
        let newest = Newest {
            count: self.ring.len(),
            moment: self.ring.newest_moment(),
        };
        if self.is_due(was, now) {
            with_entry(with_group(newest, self.begun()), now)
        } else {
            with_group(newest, self.over(now))
        }
    }

    /// What a component reads at the moment of a step that is still to be made (IEC 61850-7-2, GetBRCBValues). `was` is the newest
    /// moment so far, and `now` that of the step. EntryID and TimeofEntry are those of the newest entry, with the entries that
    /// time will bring until then: that of what is over, or, where an integrity period ended, that of all that is gathered and the
    /// integrity entry.
    pub fn read(
        &self,
        alloc: Global,
        comp: Comp,
        was: Moment,
        now: Moment,
    ) -> Result<Value, AllocError>
        ensures value { IfOk result (λ v. v ≡ reading was now comp self.now) }
        ensures stands { IfOk result (λ v. (c : Model) (b n m : ℕ) (past : Past)
            → Stands self.now c b past → was ≡ moment_at past → now ≡ max m was
            → v ≡ read_component c b comp (arrival n m ∷ past)) }
    {
        // no moment lies above the last that a step can have
        let _last = was.ms();
        let newest = self.foretold(was, now);
        let kept = Retained {
            front: self.ring.front(),
            len: newest.count,
        };
        self.block.read(alloc, comp, kept, newest.moment, now)
    }
}
