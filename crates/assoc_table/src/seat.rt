//! One association.

use crate::waiting::{Ends, Full, Waiting};
use bay_model::Output;
use circular_buffer::HeapCircularBuffer;
use std::alloc::{AllocError, Global};
use std::marker::Model;
use sv_base::CtlNo;

/// The most replies that wait.
const REPLIES: usize = 16;

/// Memory for the replies, and for a termination of each of 64 controls.
const ROOM: usize = 80;

/// An association: its ends where it is open, and what waits for it.
#[derive(Drop)]
pub struct Seat {
    ends: Option<Ends>,
    replies: usize,
    waiting: HeapCircularBuffer<Waiting>,
}

impl Model for Seat {
    ghost use Rattle.std.specs.Prelude.{◌≡◌};
    ghost use Rattle.assoc_table.specs.Seats.{Row, IsQueue, replies as replies_of};

    ghost Value = { Row };

    ghost use Rattle.std.specs.Coded.{codes};
    ghost use Rattle.sv_base.specs.Tree.{row_code};

    ghost coded = { Prim.hlevel (codes, row_code) };

    ghost view = { λ s. record { ends = s.ends; waiting = s.waiting.items } };

    ghost invariant = { λ s. (s.replies ≡ replies_of s.waiting.items) × IsQueue s.waiting.items
        × (s.waiting.capacity ≡ 80) };
}

impl Seat {
    ghost use Rattle.std.specs.Prelude.{◌≡◌, ◌++◌, ◌∷◌, [], Some, nat_le, drop, slice_get};
    ghost use Rattle.std.specs.Prelude.{option_copied, IfOk, OnOk, OnErr};
    ghost use Rattle.assoc_table.specs.Seats.{closed, replies as replies_in, IsNew, outcome};
    ghost use Rattle.assoc_table.specs.declared.waiting.Waiting.TheVariants.{Reply, Termination};

    /// Not open, with all the memory that is ever needed.
    pub fn new(alloc: Global) -> Result<Seat, AllocError>
        ensures { IfOk result (λ s. s ≡ closed) }
    {
        Ok(Seat {
            ends: None,
            replies: 0,
            waiting: HeapCircularBuffer::with_capacity(alloc, ROOM)?,
        })
    }

    /// Its ends; none where it isn't open.
    pub fn ends(&self) -> Option<Ends>
        ensures { result ≡ self.now.ends }
    {
        self.ends
    }

    /// It is opened; nothing waits.
    pub fn start(&mut self, ends: Ends)
        ensures { self.new ≡ record { ends = Some ends; waiting = [] } }
    {
        self.waiting.clear();
        self.replies = 0;
        self.ends = Some(ends);
    }

    /// It ends; what waits is dropped.
    pub fn end(&mut self)
        ensures { self.new ≡ closed }
    {
        self.waiting.clear();
        self.replies = 0;
        self.ends = None;
    }

    /// No reply has capacity.
    pub fn is_full(&self) -> bool
        ensures { result ≡ nat_le 16 (replies_in self.now.waiting) }
    {
        REPLIES <= self.replies
    }

    /// Puts a reply after what waits.
    #[tactic(auto, using(crate::proofs::SeatLaws::pushed_reply))]
    fn queue_reply(&mut self, output: Output) -> Result<(), Full>
        ensures answer { result ≡ outcome (Reply output) self.old.waiting }
        ensures queued { OnOk result (self.new ≡ record {
          ends = self.old.ends;
          waiting = self.old.waiting ++ Reply output ∷ [];
        }) }
        ensures kept { OnErr result (self.new ≡ self.old) }
    {
        if self.is_full() {
            return Err(Full);
        }
        self.replies += 1;
        self.waiting.push_back(Waiting::Reply(output));
        Ok(())
    }

    /// Puts a termination after what waits.
    #[tactic(auto, using(crate::proofs::SeatLaws::pushed_termination))]
    fn queue_termination(&mut self, control: CtlNo, good: bool)
        requires { IsNew (Termination control good) self.old.waiting }
        ensures { self.new ≡ record {
          ends = self.old.ends;
          waiting = self.old.waiting
              ++ Termination control good ∷ [];
        } }
    {
        self.waiting.push_back(Waiting::Termination(control, good));
    }

    /// Puts an item after those that wait.
    pub fn queue(&mut self, item: Waiting) -> Result<(), Full>
        requires { IsNew item self.old.waiting }
        ensures answer { result ≡ outcome item self.old.waiting }
        ensures queued { OnOk result (self.new ≡ record {
          ends = self.old.ends;
          waiting = self.old.waiting ++ item ∷ [];
        }) }
        ensures kept { OnErr result (self.new ≡ self.old) }
    {
        match item {
            Waiting::Reply(output) => self.queue_reply(output),
            Waiting::Termination(control, good) => {
                self.queue_termination(control, good);
                Ok(())
            }
        }
    }

    /// What waits longest, lent.
    pub fn oldest(&self) -> Option<&Waiting>
        ensures { option_copied result ≡ slice_get self.now.waiting 0 }
    {
        self.waiting.front()
    }

    /// Takes what waits longest.
    #[tactic(auto, using(crate::proofs::SeatLaws::first_none, crate::proofs::SeatLaws::first_reply, crate::proofs::SeatLaws::first_termination, crate::proofs::SeatLaws::queue_rest))]
    pub fn pop(&mut self) -> Option<Waiting>
        ensures value { result ≡ slice_get self.old.waiting 0 }
        ensures left { self.new ≡ record {
          ends = self.old.ends;
          waiting = drop 1 self.old.waiting;
        } }
    {
        match self.waiting.pop_front() {
            None => None,
            Some(Waiting::Reply(output)) => {
                self.replies -= 1;
                Some(Waiting::Reply(output))
            }
            Some(Waiting::Termination(control, good)) => {
                Some(Waiting::Termination(control, good))
            }
        }
    }
}
