//! What changes of attributes make of the report blocks (IEC 61850-7-2, TrgOps).

ghost use Rattle.std.specs.Prelude.{◌≡◌, ◌<◌, ℕ, List, Some, length, slice_get, slice_set};
ghost use Rattle.std.specs.List.{All};
ghost use Rattle.bay_model.specs.declared.flags.Change.{Change as ChangeValue};
ghost use Rattle.touch_index.specs.Gathered.{AreOnce};
ghost use Rattle.touch_index.specs.Gathering.{note_at, AreEmpty};
ghost use Rattle.report_block.specs.declared.block.ReportBlock.{ReportBlock as PartValue};
ghost use Rattle.report_block.specs.Events.{HasRoom, after_noting, pieces_of};
ghost use Rattle.block_watch.specs.Watched.{IsNoteOf, IsWatching, AreBlank, members_in};
ghost use Rattle.block_events.specs.Events.{AreReady, after_events};
ghost use Rattle.block_events.specs.Timed.{AreQuietUntil};

use crate::source::Source;
use bay_model::Change;
use bay_rooms::Fixed;
use block_watch::{Dues, Watch};
use report_block::{EventRoom, ReportBlock};
use sv_base::Moment;
use touch_index::Notes;

/// A block took in an event: by now it may have something else due, if it gathers its events.
fn keep_due(dues: &mut Dues, b: usize, part: &ReportBlock, moment: Moment)
    requires { b < length dues.old }
    ensures { (parts : List PartValue) (was : PartValue) → slice_get parts b ≡ Some was
        → part.now.block ≡ was.block → part.now.origin ≡ was.origin
        → AreQuietUntil moment dues.old parts
        → AreQuietUntil moment dues.new (slice_set parts b part.now) }
{
    if part.gathers() {
        dues.put(b, part.due_at(moment));
    }
}

/// Each block whose note has a member takes in its event, and the notes are emptied. It takes no memory.
fn keep_all(
    parts: &mut Vec<ReportBlock>,
    dues: &mut Dues,
    source: &Source<'_>,
    moment: Moment,
    step: u64,
    notes: &mut Notes,
    events: &mut EventRoom,
    octets: &mut Fixed,
)
    requires count { length notes.old.notes ≡ length parts.old.items }
    requires notes { (b : ℕ) (part : PartValue) → slice_get parts.old.items b ≡ Some part
        → IsNoteOf source.now.rows.now source.now.book.now source.now.store.now part
        (note_at notes.old.notes b).items }
    requires quiet { AreQuietUntil moment dues.old parts.old.items }
    requires events { HasRoom 256 events.old }
    requires entry { octets.old.room ≡ 129024 }
    ensures parts { length parts.new.items ≡ length parts.old.items }
    ensures kept { (b : ℕ) (part : PartValue) → slice_get parts.old.items b ≡ Some part
        → slice_get parts.new.items b ≡ Some (after_noting moment step
        (pieces_of source.now.store.now (members_in source.now.rows.now source.now.book.now part)
        (note_at notes.old.notes b).items) part) }
    ensures quiet { AreQuietUntil moment dues.new parts.new.items }
    ensures empty { AreEmpty notes.new.notes }
    ensures count { length notes.new.notes ≡ length notes.old.notes }
    ensures rooms { (b : ℕ) → (note_at notes.new.notes b).room ≡ (note_at notes.old.notes b).room }
    ensures events { HasRoom 256 events.new }
    ensures entry { octets.new.room ≡ 129024 }
{
    while let Some(b) = notes.last() {
        let part = &mut parts[b.0 as usize];
        let set = source.book.view(part.set(), source.rows);
        let note = notes.note(b).as_slice();
        part.event(source.store, &set, note, moment, step, events, octets);
        keep_due(dues, b.0 as usize, part, moment);
        notes.clear_last();
    }
}

/// Some attributes were set: each block whose data set they are in takes in its event (IEC 61850-7-2, TrgOps); no other is looked
/// at. It takes no memory.
pub fn event_all(
    parts: &mut Vec<ReportBlock>,
    dues: &mut Dues,
    watch: &mut Watch,
    source: &Source<'_>,
    changes: &[Change],
    moment: Moment,
    step: u64,
    events: &mut EventRoom,
    octets: &mut Fixed,
)
    requires ready { AreReady source.now.rows.now source.now.book.now source.now.store.now
        parts.old.items }
    requires watching { IsWatching source.now.rows.now source.now.book.now
        (length source.now.store.now) parts.old.items watch.old }
    requires attrs { All (λ (ch : ChangeValue). ch.attr.0
        < length source.now.store.now) changes.now }
    requires once { AreOnce changes.now }
    requires quiet { AreQuietUntil moment dues.old parts.old.items }
    requires events { HasRoom 256 events.old }
    requires entry { octets.old.room ≡ 129024 }
    ensures parts { parts.new.items
        ≡ after_events source.now.rows.now source.now.book.now source.now.store.now changes.now
        moment step parts.old.items }
    ensures quiet { AreQuietUntil moment dues.new parts.new.items }
    ensures watch { watch.new ≡ record watch.old { notes = watch.new.notes } }
    ensures blank { AreBlank (length parts.old.items) watch.new.notes }
    ensures events { HasRoom 256 events.new }
    ensures entry { octets.new.room ≡ 129024 }
{
    watch
        .index
        .gather(changes, &watch.options, &mut watch.notes);
    keep_all(
        parts,
        dues,
        source,
        moment,
        step,
        &mut watch.notes,
        events,
        octets,
    );
}
