//! The window in which a block gathers its events (IEC 61850-7-2, BRCB attribute BufTm).

use crate::slots::Slots;
use bay_model::Mention;
use bay_rooms::{Fixed, MemberBytes};
use std::alloc::{AllocError, Global};
use std::marker::Model;
use sv_base::Moment;

/// The open group of a block: the members that its events mentioned since the first of them, each with what is kept of it.
/// Contracts see how many members fit, the buffer time, and what is gathered, in the order of the data set.
#[derive(Drop)]
pub struct Window {
    buf_tm: u32,
    begun: Option<Moment>,
    slots: Slots,
}

impl Model for Window {
    ghost use Rattle.std.specs.Prelude.{◌≡◌, [], None};
    ghost use Rattle.std.specs.Option.{option_map};
    ghost use Rattle.window_core.specs.Windows.{Windowed};

    ghost Value = { Windowed };

    ghost view = { λ w. record {
      members = w.slots.members;
      buf_tm = w.buf_tm;
      gathered = option_map
          (λ m. record { moment = m; pieces = w.slots.pieces }) w.begun;
    } };

    ghost invariant = { λ w. (w.begun ≡ None → w.slots.pieces ≡ []) × (w.buf_tm ≡ 0
        → w.begun ≡ None) };
}

impl Window {
    ghost use Rattle.std.specs.Prelude.{◌≡◌, ◌≢◌, ◌≤◌, ◌*◌, ◌||◌, [], false, length, None, Some};
    ghost use Rattle.std.specs.Prelude.{IfOk, if◌then◌else◌};
    ghost use Rattle.std.specs.Option.{option_map};
    ghost use Rattle.window_core.specs.Pieces.{pieces, AreRow, AreNumbers};
    ghost use Rattle.window_core.specs.Windows.{empty, closed, end_of, is_over as is_over_at};
    ghost use Rattle.window_core.specs.Windows.{over_at, after_time, closed_by, after_event, told};
    ghost use Rattle.window_core.specs.Windows.{joined, is_met as is_met_in};

    /// An empty window for a data set of n members, at most 256, under a buffer time in milliseconds. It takes all the
    /// memory that it ever needs; no other call takes memory.
    pub fn open(alloc: Global, members: u32, buf_tm: u32) -> Result<Window, AllocError>
        requires { members ≤ 256 }
        ensures { IfOk result (λ w. w ≡ empty members buf_tm) }
    {
        Ok(Window {
            buf_tm,
            begun: None,
            slots: Slots::new(alloc, members)?,
        })
    }

    /// The buffer time, in milliseconds. Where it is 0 nothing is gathered.
    pub fn buf_tm(&self) -> u32
        ensures value { result ≡ self.now.buf_tm }
        ensures at_once { self.now.buf_tm ≡ 0 → self.now.gathered ≡ None }
    {
        self.buf_tm
    }

    /// The moment at which the buffer time of what is gathered has passed, in milliseconds since 1970; none where nothing is
    /// gathered.
    pub fn end(&self) -> Option<u64>
        ensures { result ≡ end_of self.now }
    {
        match self.begun {
            Some(moment) => Some(moment.ms() + u64::from(self.buf_tm)),
            None => None,
        }
    }

    /// Sets the buffer time, in milliseconds, where nothing is gathered.
    pub fn set_time(&mut self, buf_tm: u32)
        requires { self.old.gathered ≡ None }
        ensures { self.new ≡ empty self.old.members buf_tm }
    {
        self.buf_tm = buf_tm;
    }

    /// Closes what is gathered, if anything is: gives the moment of its first event, and puts its octets into `out` in place of
    /// what stood there, the members in the order of the data set. `out` has capacity for 504 octets a member. It takes no memory.
    pub fn close(&mut self, out: &mut Fixed) -> Option<Moment>
        requires { 504 * self.old.members ≤ out.old.room }
        ensures told { option_map (λ m. (m, out.new.items)) result ≡ told self.old.gathered }
        ensures left { self.new ≡ closed self.old }
        ensures room { out.new.room ≡ out.old.room }
    {
        match self.begun {
            Some(moment) => {
                self.slots.pour(out);
                self.begun = None;
                Some(moment)
            }
            None => None,
        }
    }

    /// The buffer time has passed since the first event of what is gathered.
    fn is_over(&self, now: Moment) -> bool
        ensures { result ≡ is_over_at now self.now }
    {
        match self.begun {
            Some(moment) => moment.ms() + u64::from(self.buf_tm) <= now.ms(),
            None => false,
        }
    }

    /// Lets time pass: closes what is gathered where its buffer time has passed since its first event, as [`Window::close`]
    /// does.
    pub fn advance(&mut self, now: Moment, out: &mut Fixed) -> Option<Moment>
        requires { 504 * self.old.members ≤ out.old.room }
        ensures told { option_map (λ m. (m, out.new.items)) result ≡ told (over_at now self.old) }
        ensures left { self.new ≡ after_time now self.old }
        ensures room { out.new.room ≡ out.old.room }
    {
        if self.is_over(now) {
            self.close(out)
        } else {
            None
        }
    }

    /// One of the members that an event mentions is gathered already.
    fn is_met(&self, note: &[Mention]) -> bool
        requires { AreNumbers self.now.members note.now }
        ensures { result ≡ is_met_in note.now self.now }
    {
        self.begun.is_some() && self.slots.is_any_there(note)
    }

    /// Puts the members of an event to what is gathered, or begins with them.
    fn gather(&mut self, now: Moment, note: &[Mention], bytes: &MemberBytes)
        requires row { AreRow self.old.members 0 (pieces note.now bytes.now.items) }
        requires count { length note.now ≡ length bytes.now.items }
        requires apart { is_met_in note.now self.old ≡ false }
        requires time { self.old.buf_tm ≢ 0 }
        ensures { self.new ≡ record {
          members = self.old.members;
          buf_tm = self.old.buf_tm;
          gathered = Some
              (joined now (pieces note.now bytes.now.items) self.old.gathered);
        } }
    {
        self.slots.put_all(note, bytes);
        match self.begun {
            Some(_) => (),
            None => self.begun = Some(now),
        }
    }

    /// Closes what is gathered where an event doesn't go to it, as [`Window::close`] does.
    fn end_before(&mut self, now: Moment, note: &[Mention], out: &mut Fixed) -> Option<Moment>
        requires numbers { AreNumbers self.old.members note.now }
        requires room { 504 * self.old.members ≤ out.old.room }
        ensures told { option_map (λ m. (m, out.new.items)) result ≡ told
            (if is_over_at now self.old || is_met_in note.now self.old
            then self.old.gathered else None) }
        ensures left { self.new ≡ record self.old {
          gathered = if is_over_at now self.old
              || is_met_in note.now self.old then None else self.old.gathered;
        } }
        ensures room { out.new.room ≡ out.old.room }
    {
        if self.is_over(now) || self.is_met(note) {
            self.close(out)
        } else {
            None
        }
    }

    /// Takes in an event. Where the buffer time has passed, or a member that it mentions is gathered already, what is gathered
    /// is closed, as [`Window::close`] does, and the event begins anew; else it goes to what is gathered. With a buffer time of 0
    /// the event itself is closed. `note` has the members in ascending order, `bytes` what is kept of each of them, at most 504
    /// octets. At most one entry closes. It takes no memory.
    pub fn add(
        &mut self,
        now: Moment,
        note: &[Mention],
        bytes: &MemberBytes,
        out: &mut Fixed,
    ) -> Option<Moment>
        requires row { AreRow self.old.members 0 (pieces note.now bytes.now.items) }
        requires count { length note.now ≡ length bytes.now.items }
        requires room { 504 * self.old.members ≤ out.old.room }
        ensures told { option_map (λ m. (m, out.new.items)) result
            ≡ told (closed_by now (pieces note.now bytes.now.items) self.old) }
        ensures left { self.new ≡ after_event now (pieces note.now bytes.now.items) self.old }
        ensures room { out.new.room ≡ out.old.room }
    {
        if self.buf_tm == 0 {
            self.slots.put_all(note, bytes);
            self.slots.pour(out);
            return Some(now);
        }
        let closed = self.end_before(now, note, out);
        self.gather(now, note, bytes);
        closed
    }
}
