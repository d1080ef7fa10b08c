//! What is gathered of each member of a data set: its octets lie after those that came before, and a slot a member says
//! where.

ghost use Rattle.std.specs.Prelude.{◌≡◌, ◌≤◌, ◌+◌, ◌++◌, ◌∷◌, [], length};
ghost use Rattle.window_core.specs.Pieces.{octets_of as octets_in};
ghost use Rattle.window_core.specs.Slots.{listed as listed_in, total as total_of};
ghost use Rattle.window_core.specs.Slots.{AreSpans as AreSpansIn};

use bay_model::Mention;
use bay_rooms::{Fixed, MemberBytes};
use std::alloc::{AllocError, Global};
use std::marker::Model;

/// The most octets that are kept of a member: its number and its reasons in two octets each, and 500 of MMS Data.
const LARGEST: u32 = 504;

/// Where the octets of a member lie: from which place on, and how many.
#[derive(Clone, Copy, Debug)]
struct Span {
    at: usize,
    len: usize,
}

/// The octets of members, in memory that was allocated before, 504 octets a member. Contracts see how many members have a slot, and
/// those that are there, in the order of the data set.
#[derive(Drop)]
pub struct Slots {
    spans: Vec<Option<Span>>,
    octets: Fixed,
}

impl Model for Slots {
    ghost use Rattle.std.specs.Prelude.{◌≡◌, ◌≤◌, ◌*◌, length};
    ghost use Rattle.window_core.specs.Slots.{Slotted, listed, total, AreSpans};

    ghost Value = { Slotted };

    ghost view = { λ s. record {
      members = length s.spans.items;
      pieces = listed 1 s.spans.items s.octets.items;
    } };

    ghost invariant = { λ s. (length s.spans.items ≤ 256)
        × (s.octets.room ≡ 504 * length s.spans.items)
        × (length s.octets.items ≡ total s.spans.items)
        × AreSpans (length s.octets.items) s.spans.items };
}

/// Adds the octets of a span, where there is one.
fn pour_span(octets: &[u8], span: Option<Span>, out: &mut Fixed)
    requires span { AreSpansIn (length octets.now) (span ∷ []) }
    requires room { length out.old.items + total_of (span ∷ []) ≤ out.old.room }
    ensures { out.new ≡ record {
      items = out.old.items ++ octets_in
          (listed_in 1 (span ∷ []) octets.now);
      room = out.old.room;
    } }
{
    if let Some(span) = span {
        out.push(&octets[span.at..span.at + span.len]);
    }
}

/// Adds the octets of spans.
fn pour_spans(octets: &[u8], spans: &[Option<Span>], out: &mut Fixed)
    requires span { AreSpansIn (length octets.now) spans.now }
    requires room { length out.old.items + total_of spans.now ≤ out.old.room }
    ensures { out.new ≡ record {
      items = out.old.items ++ octets_in
          (listed_in 1 spans.now octets.now);
      room = out.old.room;
    } }
{
    for span in spans {
        pour_span(octets, *span, out);
    }
}

impl Slots {
    ghost use Rattle.std.specs.Prelude.{◌≡◌, ◌≤◌, ◌<◌, ◌*◌, [], true, false, length, IfOk};
    ghost use Rattle.window_core.specs.Pieces.{insert, insert_all, is_there, octets_of, mentions};
    ghost use Rattle.window_core.specs.Pieces.{pieces, AreNumbers, AreRow};

    /// None of n members is there, at most 256. It takes all the memory that is ever needed.
    pub fn new(alloc: Global, members: u32) -> Result<Slots, AllocError>
        requires { members ≤ 256 }
        ensures { IfOk result (λ s. s ≡ record { members = members; pieces = [] }) }
    {
        Ok(Slots {
            spans: vec![in alloc; None; members as usize]?,
            octets: Fixed::new(alloc, members * LARGEST)?,
        })
    }

    /// A member is there, by its number from 1.
    fn is_there(&self, number: u32) -> bool
        requires from { 1 ≤ number }
        requires to { number ≤ self.now.members }
        ensures { result ≡ is_there number self.now.pieces }
    {
        self.spans[number as usize - 1].is_some()
    }

    /// Puts the octets of a member that isn't there, at most 504. It takes no memory.
    fn put(&mut self, number: u32, octets: &[u8])
        requires from { 1 ≤ number }
        requires to { number ≤ self.old.members }
        requires short { length octets.now ≤ 504 }
        requires new { is_there number self.old.pieces ≡ false }
        ensures { self.new ≡ record {
          members = self.old.members;
          pieces = insert (record { number = number; octets = octets.now }) self.old.pieces;
        } }
    {
        let at = self.octets.len();
        self.octets.push(octets);
        self.spans[number as usize - 1] = Some(Span {
            at,
            len: octets.len(),
        });
    }

    /// Pours out the octets of all members, in the order of the data set, in place of what stood there; then none is there. It
    /// takes no memory.
    pub fn pour(&mut self, out: &mut Fixed)
        requires { 504 * self.old.members ≤ out.old.room }
        ensures poured { out.new ≡ record {
          items = octets_of self.old.pieces;
          room = out.old.room;
        } }
        ensures empty { self.new ≡ record { members = self.old.members; pieces = [] } }
    {
        out.clear();
        pour_spans(self.octets.as_slice(), self.spans.as_slice(), out);
        self.clear();
    }

    /// None is there any longer.
    fn clear(&mut self)
        ensures { self.new ≡ record { members = self.old.members; pieces = [] } }
    {
        let mut place = 0;
        while place < self.spans.len() {
            self.spans[place] = None;
            place += 1;
        }
        self.octets.clear();
    }

    /// One of these members is there.
    pub fn is_any_there(&self, note: &[Mention]) -> bool
        requires { AreNumbers self.now.members note.now }
        ensures { result ≡ mentions note.now self.now.pieces }
    {
        for mention in note {
            if self.is_there(mention.member.0) {
                return true;
            }
        }
        false
    }

    /// Puts the octets of members that are not there, one for each that is mentioned. It takes no memory.
    pub fn put_all(&mut self, note: &[Mention], bytes: &MemberBytes)
        requires row { AreRow self.old.members 0 (pieces note.now bytes.now.items) }
        requires count { length note.now ≡ length bytes.now.items }
        requires apart { mentions note.now self.old.pieces ≡ false }
        ensures { self.new ≡ record {
          members = self.old.members;
          pieces = insert_all (pieces note.now bytes.now.items) self.old.pieces;
        } }
    {
        for i in (0..note.len()).rev() {
            self.put(note[i].member.0, bytes.get(i));
        }
    }
}
