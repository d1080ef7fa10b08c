//! The events of a report block under its buffer time (IEC 61850-7-2, BRCB attribute BufTm).

ghost use Rattle.std.specs.Prelude.{◌≡◌, ◌≤◌, ◌*◌, IfOk, length, map};
ghost use Rattle.std.specs.List.{All};
ghost use Rattle.bay_model.specs.declared.note.Mention.{Mention as MentionValue};
ghost use Rattle.bay_model.specs.Retained.{kept_octets_of};
ghost use Rattle.report_block.specs.EntryOctets.{IsKeepable, kept_of};

use crate::block::ReportBlock;
use crate::entry_octets::put_mention;
use bay_model::Mention;
use bay_rooms::{Fixed, MemberBytes};
use set_view::SetView;
use std::alloc::{AllocError, Global};
use sv_base::Moment;
use value_store::Store;

/// Memory for what is kept of an event: of one member, and of each.
#[derive(Drop)]
pub struct EventRoom {
    one: Fixed,
    each: MemberBytes,
}

/// What is kept of each member of a note, in place of what stood in `each`. It takes no memory.
fn put_each(
    store: &Store,
    set: &SetView<'_>,
    note: &[Mention],
    one: &mut Fixed,
    each: &mut MemberBytes,
)
    requires members { All (IsKeepable store.now set.now) note.now }
    requires one { 504 ≤ one.old.room }
    requires count { length note.now ≤ each.old.members }
    requires room { 504 * length note.now ≤ each.old.room }
    ensures each { each.new ≡ record {
      items = map (λ (m : MentionValue). kept_octets_of (kept_of store.now set.now m)) note.now;
      members = each.old.members;
      room = each.old.room;
    } }
    ensures one { one.new.room ≡ one.old.room }
{
    each.clear();
    for mention in note {
        one.clear();
        put_mention(
            store,
            set.member(mention.member.0 as usize - 1),
            *mention,
            one,
        );
        each.push(one.as_slice());
    }
}

impl EventRoom {
    ghost use Rattle.std.specs.Prelude.{IfOk};
    ghost use Rattle.report_block.specs.Events.{HasRoom};

    /// Memory for the events of a data set of n members, at most 256.
    pub fn new(alloc: Global, members: u32) -> Result<EventRoom, AllocError>
        requires { members ≤ 256 }
        ensures { IfOk result (λ r. HasRoom members r) }
    {
        Ok(EventRoom {
            one: Fixed::new(alloc, 504)?,
            each: MemberBytes::new(alloc, members, 504 * members)?,
        })
    }
}

impl ReportBlock {
    ghost use Rattle.std.specs.Prelude.{◌≡◌, ◌≤◌, ◌*◌, ℕ, length};
    ghost use Rattle.std.specs.List.{All};
    ghost use Rattle.report_block.specs.EntryOctets.{IsKeepable};
    ghost use Rattle.report_block.specs.Events.{HasRoom, AreInOrder, after_noting, pieces_of};

    /// Takes in the event of a point: the members of its data set that the point is an event of, in the order of the set, with the
    /// values that they have now. With BufTm 0 its entry is kept at once, else the event is gathered; an entry that closes then is
    /// kept, and its octets come to stand in `octets`. It takes no memory.
    pub fn event(
        &mut self,
        store: &Store,
        set: &SetView<'_>,
        note: &[Mention],
        now: Moment,
        step: u64,
        room: &mut EventRoom,
        octets: &mut Fixed,
    )
        requires members { All (IsKeepable store.now set.now) note.now }
        requires order { AreInOrder 0 note.now }
        requires within { length set.now ≤ self.old.window.members }
        requires room { HasRoom (length note.now) room.old }
        requires octets { 504 * length note.now ≤ octets.old.room }
        requires window { 504 * self.old.window.members ≤ octets.old.room }
        ensures noted { self.new ≡ after_noting now step
            (pieces_of store.now set.now note.now) self.old }
        ensures room { (n : ℕ) → HasRoom n room.old → HasRoom n room.new }
        ensures octets { octets.new.room ≡ octets.old.room }
    {
        if note.is_empty() {
            return;
        }
        if self.window.buf_tm() == 0 {
            self.keep_at_once(store, set, now, step, note, octets);
            return;
        }
        put_each(store, set, note, &mut room.one, &mut room.each);
        if let Some(moment) = self.window.add(now, note, &room.each, octets) {
            self.ring.append(moment, step, octets.as_slice());
        }
    }
}
