//! What has come of a server's stream, one event after another.

ghost use Rattle.std.specs.Prelude.{◌≡◌, ◌≤◌, ◌++◌, [], ℕ, List, None, MatchOption, MatchResult};
ghost use Rattle.std.specs.List.{AllByRecursion};
ghost use Rattle.osi_stack.specs.declared.events.Event.{Event};
ghost use Rattle.osi_stack.specs.Lines.{HasLine};
ghost use Rattle.osi_stack.specs.Sides.{CallsFor};
ghost use Rattle.mms_client.specs.Following.{ends, HasCome, Pops, HasNone, HasRead, CannotRead};

use crate::fault::ClientFault;
use crate::link::receive;
use osi_stack::{Caller, Event, Events, StackFault};
use std::alloc::Global;
use std::collections::VecDeque;
use sv_io::Link;

/// The stack of the calling side, and its events that were not taken yet. They are taken one by one, only as far as a call
/// needs them, and a refusal of the stack is answered once the events before it were: so what a call answers doesn't turn on
/// where the stream was cut.
#[derive(Drop)]
pub struct Stream {
    pub caller: Caller,
    pub waiting: VecDeque<Event>,
    /// Why no events come after these.
    pub stopped: Option<StackFault>,
}

impl Stream {
    /// Nothing has come.
    pub fn new(alloc: Global, caller: Caller) -> Self
        ensures come { CallsFor caller 65000 [] [] → HasCome result [] [] }
        ensures none { result.waiting.items ≡ [] }
    {
        Stream {
            caller,
            waiting: VecDeque::new(alloc),
            stopped: None,
        }
    }

    /// Takes the next event, if there is one.
    pub fn next(&mut self) -> Option<Event>
        ensures { MatchOption result (HasNone self.old self.new) (λ e. Pops self.old self.new e) }
    {
        self.waiting.pop_front()
    }

    /// Feeds the stack with a piece.
    fn feed(&mut self, alloc: Global, piece: &[u8])
        requires none { self.old.waiting.items ≡ [] }
        requires on { self.old.stopped ≡ None }
        ensures come { (read : List ℕ) (taken : List Event) → HasCome self.old read taken
            → HasCome self.new (read ++ piece.now) taken }
        ensures lines { AllByRecursion HasLine self.new.waiting.items }
    {
        let mut events = Events::from_vec(Vec::new(alloc));
        let fed = self.caller.feed(alloc, piece, &mut events);
        self.stopped = fed.err();
        self.waiting = VecDeque::from(events.into_vec());
    }

    /// Receives one more piece, once all events were taken.
    pub fn fill<L: Link>(&mut self, alloc: Global, link: &mut L) -> Result<(), ClientFault>
        requires { self.old.waiting.items ≡ [] }
        ensures reads { MatchResult result
            (λ _. (read : List ℕ) (taken : List Event) → HasCome self.old read taken
            → HasRead self.new (L.left link.old) (L.left link.new) read taken)
            (λ f. CannotRead self.old
            (ends (L.left link.old) (L.taken link.old)
            (L.Source.faults link.old) (L.Sink.faults link.old))
            (ends (L.left link.new) (L.taken link.new)
            (L.Source.faults link.new) (L.Sink.faults link.new)) f) }
        ensures lines { AllByRecursion HasLine self.new.waiting.items }
        ensures later { L.Source.faults link.old ≤ L.Source.faults link.new }
        ensures written { L.taken link.new ≡ L.taken link.old }
        ensures writes { L.Sink.faults link.new ≡ L.Sink.faults link.old }
    {
        if let Some(fault) = self.stopped {
            return Err(ClientFault::from(fault));
        }
        let mut buf = [0u8; 4096];
        let piece = receive(link, &mut buf)?;
        self.feed(alloc, piece);
        Ok(())
    }
}
