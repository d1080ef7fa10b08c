//! The octets that a block keeps of an entry.

ghost use Rattle.std.specs.Prelude.{◌≡◌, ◌≤◌, ◌<◌, ◌^◌, ◌+◌, ◌*◌, length};
ghost use Rattle.std.specs.List.{All};
ghost use Rattle.bay_model.specs.Retained.{weight_of as weight_if, kept_octets_of};
ghost use Rattle.value_store.specs.Written.{adds};
ghost use Rattle.report_block.specs.Alls.{all_from};
ghost use Rattle.report_block.specs.EntryOctets.{kept_with, note_octets, weights, IsWritable};
ghost use Rattle.report_block.specs.EntryOctets.{IsKeepable};

use bay_model::{MemberShape, Mention, Reasons};
use bay_rooms::Fixed;
use set_view::SetView;
use sv_base::MemberNo;
use value_store::Store;

/// The weight of a reason that is one of a member's, else 0.
fn weight_of(is_one: bool, weight: u8) -> u8
    ensures { result ≡ weight_if is_one weight }
{
    if is_one { weight } else { 0 }
}

/// The reasons in one octet, each with the bit that it has in a report (IEC 61850-8-1, ReasonForInclusion).
fn weights_of(reasons: Reasons) -> u8
    ensures { result ≡ weights reasons }
{
    let changed = weight_of(reasons.dchg, 64) + weight_of(reasons.qchg, 32);
    let updated = weight_of(reasons.dupd, 16) + weight_of(reasons.intg, 8);
    changed + updated + weight_of(reasons.gi, 4)
}

/// Adds the octets of a member. It takes no memory.
pub(crate) fn put_mention(store: &Store, shape: &MemberShape, mention: Mention, octets: &mut Fixed)
    requires number { mention.member.0 < 2 ^ 16 }
    requires writable { IsWritable store.now shape.now }
    requires room { length octets.old.items + 504 ≤ octets.old.room }
    ensures { octets.new ≡ adds octets.old
        (kept_octets_of (kept_with store.now shape.now mention)) }
{
    let number = mention.member.0;
    let weights = weights_of(mention.reasons);
    octets.push_array([(number / 256) as u8, (number % 256) as u8, 0, weights]);
    store.member_bytes(shape, octets);
}

/// The octets that a block keeps of all members of a data set for one reason, in place of what stood there. It takes no memory.
pub(crate) fn put_all(store: &Store, set: &SetView<'_>, reasons: Reasons, octets: &mut Fixed)
    requires few { length set.now ≤ 256 }
    requires members { All (IsWritable store.now) set.now }
    requires room { 504 * length set.now ≤ octets.old.room }
    ensures { octets.new ≡ record {
      items = note_octets store.now set.now
          (all_from reasons 1 set.now);
      room = octets.old.room;
    } }
{
    octets.clear();
    for place in 0..set.len() {
        let mention = Mention {
            member: MemberNo(place as u32 + 1),
            reasons,
        };
        put_mention(store, set.member(place), mention, octets);
    }
}

/// The octets that a block keeps of a note, in place of what stood there: of each member its number, its reasons and its
/// MMS Data in the store. It takes no memory.
pub(crate) fn put_note(store: &Store, set: &SetView<'_>, note: &[Mention], octets: &mut Fixed)
    requires members { All (IsKeepable store.now set.now) note.now }
    requires room { 504 * length note.now ≤ octets.old.room }
    ensures { octets.new ≡ record {
      items = note_octets store.now set.now note.now;
      room = octets.old.room;
    } }
{
    octets.clear();
    for mention in note {
        let shape = set.member(mention.member.0 as usize - 1);
        put_mention(store, shape, *mention, octets);
    }
}
