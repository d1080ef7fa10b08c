//! Time passes for report blocks (IEC 61850-7-2, BRCB attributes BufTm and IntgPd).

ghost use Rattle.std.specs.Prelude.{◌≡◌, ◌≤◌};
ghost use Rattle.block_events.specs.Events.{AreReady, IsReady};
ghost use Rattle.block_events.specs.Timed.{arrived_all, arrived_part, AreQuietUntil, IsQuietUntil};

use crate::source::Source;
use bay_rooms::Fixed;
use block_watch::{Dues, has_come};
use report_block::ReportBlock;
use sv_base::Moment;

/// Time passes for a block, which has nothing due before a moment; where that hasn't come the block isn't looked at. Gives the moment
/// before which it has nothing due then, in milliseconds since 1970. It takes no memory.
fn pass_one(
    part: &mut ReportBlock,
    due: Option<u64>,
    source: &Source<'_>,
    was: Moment,
    now: Moment,
    step: u64,
    octets: &mut Fixed,
) -> Option<u64>
    requires later { was ≤ now }
    requires ready { IsReady source.now.rows.now source.now.book.now source.now.store.now part.old }
    requires quiet { IsQuietUntil was due part.old }
    requires entry { octets.old.room ≡ 129024 }
    ensures part { part.new ≡ arrived_part source.now.rows.now source.now.book.now
        source.now.store.now was now step part.old }
    ensures quiet { IsQuietUntil now result part.new }
    ensures entry { octets.new.room ≡ 129024 }
{
    if !has_come(due, now) {
        return due;
    }
    let set = source.book.view(part.set(), source.rows);
    part.pass(source.store, &set, was, now, step, octets);
    part.due_at(now)
}

/// Time passes for the blocks between two moments, of which the later is that of the step that is made. No block is looked at whose
/// own moment hasn't come. It takes no memory.
fn pass_all(
    parts: &mut Vec<ReportBlock>,
    dues: &mut Dues,
    source: &Source<'_>,
    was: Moment,
    now: Moment,
    step: u64,
    octets: &mut Fixed,
)
    requires later { was ≤ now }
    requires ready { AreReady source.now.rows.now source.now.book.now source.now.store.now
        parts.old.items }
    requires quiet { AreQuietUntil was dues.old parts.old.items }
    requires entry { octets.old.room ≡ 129024 }
    ensures parts { parts.new.items
        ≡ arrived_all source.now.rows.now source.now.book.now source.now.store.now was now step
        parts.old.items }
    ensures quiet { AreQuietUntil now dues.new parts.new.items }
    ensures entry { octets.new.room ≡ 129024 }
{
    let mut place = 0;
    while place < parts.len() {
        let part = &mut parts[place];
        let due = dues.at(place);
        let due = pass_one(part, due, source, was, now, step, octets);
        dues.put(place, due);
        place += 1;
    }
    dues.settle();
}

/// Time passes for the blocks; where the moment of none has come they are left as they are. It takes no memory.
pub fn pass_due(
    parts: &mut Vec<ReportBlock>,
    dues: &mut Dues,
    source: &Source<'_>,
    was: Moment,
    now: Moment,
    step: u64,
    octets: &mut Fixed,
)
    requires later { was ≤ now }
    requires ready { AreReady source.now.rows.now source.now.book.now source.now.store.now
        parts.old.items }
    requires quiet { AreQuietUntil was dues.old parts.old.items }
    requires entry { octets.old.room ≡ 129024 }
    ensures parts { parts.new.items
        ≡ arrived_all source.now.rows.now source.now.book.now source.now.store.now was now step
        parts.old.items }
    ensures quiet { AreQuietUntil now dues.new parts.new.items }
    ensures entry { octets.new.room ≡ 129024 }
{
    if !dues.have_come(now) {
        return;
    }
    pass_all(parts, dues, source, was, now, step, octets);
}
