//! The side of a connection that was called.

use crate::connection::Connection;
use crate::events::Events;
use crate::fault::StackFault;
use std::alloc::Global;

/// The stack of a connection on the side that was called: what has come of its stream. It keeps at most one TPKT that is
/// not whole and the TSDU whose last DT has not come.
///
/// Contracts say what it stands for: the octets that it was fed, and the events that it gave for them.
#[derive(Debug, Drop)]
pub struct Upper {
    connection: Connection,
}

impl Upper {
    ghost use Rattle.std.specs.Prelude.{◌≡◌, ℕ, List, [], ◌++◌, Err, IfErr, MatchResult};
    ghost use Rattle.std.specs.List.{AllByRecursion};
    ghost use Rattle.osi_stack.specs.declared.events.Event.{Event};
    ghost use Rattle.osi_stack.specs.declared.fault.StackFault.{StackFault};
    ghost use Rattle.osi_stack.specs.Lines.{HasLine};
    ghost use Rattle.osi_stack.specs.Sides.{StandsFor, HasRefused, GoesOn, Refuses};

    /// Nothing has come: a CR is awaited.
    pub fn new() -> Upper
        ensures { StandsFor result [] [] }
    {
        Upper {
            connection: Connection::called(),
        }
    }

    /// Takes the next piece of the stream, and adds the events of the whole TPKTs in it.
    ///
    /// The stream is a CR, which is answered by a CC (ISO 8073); a CONNECT (ISO 8327-1) with a CP (ISO 8823-1), in it an
    /// AARQ (ISO 8650-1), in it an initiate request (ISO 9506-2), which is answered by the ACCEPT that comes with
    /// `Connected`; then data, each TSDU with a PDU in the context of MMS; and a FINISH, whose answer comes with
    /// `Released`, or an ABORT, a DR or an ER. What follows `Released` and `Aborted` is disregarded.
    ///
    /// What goes on in no legal way is refused when its TPKT is whole, but what is wrong in the first four octets of a
    /// TPKT as soon as they are there. The events of the TPKTs before the refused one are added. From then on each call
    /// answers the same refusal and changes nothing; after `Memory` each answers that.
    pub fn feed(
        &mut self,
        alloc: Global,
        piece: &[u8],
        events: &mut Events,
    ) -> Result<(), StackFault>
        // However the stream was cut before: the object stands for it with this piece, or the stream is refused.
        ensures stands { (octets : List ℕ) (so_far : List Event) → StandsFor self.old octets so_far
            → MatchResult result
            (λ _. GoesOn self.new (octets ++ piece.now) so_far events.old events.new)
            (λ f. Refuses f (octets ++ piece.now) so_far events.old events.new) }
        // Each line that is told has its parts in their ranges.
        ensures lines { AllByRecursion HasLine events.old → AllByRecursion HasLine events.new }
        // What it refuses with it answers again.
        ensures refuses { IfErr result (λ f. HasRefused self.new f) }
        ensures again { (f : StackFault) → HasRefused self.old f → (result ≡ Err f)
            × (self.new ≡ self.old) × (events.new ≡ events.old) }
    {
        self.connection.feed(alloc, piece, events)
    }
}
