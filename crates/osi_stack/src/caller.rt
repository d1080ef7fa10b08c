//! The side of a connection that calls.

use crate::connection::Connection;
use crate::events::{Events, Line};
use crate::fault::StackFault;
use acse_apdu::write_rlrq;
use session_pres::write_fn;
use std::alloc::{AllocError, Global};
use sv_base::Octs;
use tpkt_cotp::{call, tsdu};

/// The stack of a connection on the side that calls: what has come of the server's stream. It keeps at most one TPKT that
/// is not whole and the TSDU whose last DT has not come.
///
/// Contracts say what it stands for: the size of PDUs that it proposes, the octets that it was fed, and the events that it
/// gave for them.
#[derive(Debug, Drop)]
pub struct Caller {
    connection: Connection,
}

impl Caller {
    ghost use Rattle.std.specs.Prelude.{◌≡◌, ℕ, List, [], ◌++◌, Err, IfOk, IfErr, MatchResult};
    ghost use Rattle.std.specs.List.{AllByRecursion};
    ghost use Rattle.tpkt_cotp.specs.Written.{IsExponent, call_of, tsdu_of};
    ghost use Rattle.session_pres.specs.declared.codes.TheConstants.{FINISH};
    ghost use Rattle.session_pres.specs.Written.{release_spdu};
    ghost use Rattle.acse_apdu.specs.declared.codes.TheConstants.{RLRQ};
    ghost use Rattle.acse_apdu.specs.Written.{release_octets};
    ghost use Rattle.osi_stack.specs.declared.events.Event.{Event};
    ghost use Rattle.osi_stack.specs.declared.fault.StackFault.{StackFault};
    ghost use Rattle.osi_stack.specs.Lines.{HasLine, IsProposal};
    ghost use Rattle.osi_stack.specs.Sides.{CallsFor, HasGivenUp, CallsOn, GivesUp};

    /// Nothing has come: a CC is awaited. PDUs of at most `size` octets will be proposed, 1024 to 65000.
    pub fn new(size: u32) -> Caller
        requires { IsProposal size }
        ensures { CallsFor result size [] [] }
    {
        Caller {
            connection: Connection::calling(size),
        }
    }

    /// The octets to send first: a CR whose SRC-REF is 1 (ISO 8073), in its TPKT (RFC 1006).
    pub fn opening(&self, alloc: Global) -> Result<Octs, AllocError>
        ensures { IfOk result (λ o. o ≡ call_of 1) }
    {
        call(alloc, 1)
    }

    /// Takes the next piece of the server's stream, and adds the events of the whole TPKTs in it.
    ///
    /// The stream is a CC (ISO 8073), to which the octets of `Answer` are to be sent, a CONNECT that proposes the
    /// contexts 1, of association control, and 3, of MMS; an ACCEPT (ISO 8327-1) with a CPA (ISO 8823-1), in it an AARE
    /// (ISO 8650-1), in it an initiate answer (ISO 9506-2), which gives `Connected` with no octets; then data, each TSDU
    /// with a PDU in the context of MMS; and a DISCONNECT, which gives `Released` with no octets, or an ABORT, a DR or an
    /// ER. What follows `Released` and `Aborted` is disregarded.
    ///
    /// A greater size than was proposed counts as the proposed one, and so does one that is left out. Where the CC says
    /// no TPDU size the exponent is the 13 that the CR had. What is refused, and when, is as [`crate::Upper::feed`] has it.
    pub fn feed(
        &mut self,
        alloc: Global,
        piece: &[u8],
        events: &mut Events,
    ) -> Result<(), StackFault>
        // However the stream was cut before: the object stands for it with this piece, or the stream is refused.
        ensures stands { (size : ℕ) (octets : List ℕ) (so_far : List Event)
            → CallsFor self.old size octets so_far → MatchResult result
            (λ _. CallsOn self.new size (octets ++ piece.now) so_far events.old events.new)
            (λ f. GivesUp f size (octets ++ piece.now) so_far events.old events.new) }
        // Each line that is told has its parts in their ranges.
        ensures lines { AllByRecursion HasLine events.old → AllByRecursion HasLine events.new }
        // What it refuses with it answers again.
        ensures refuses { IfErr result (λ f. HasGivenUp self.new f) }
        ensures again { (f : StackFault) → HasGivenUp self.old f → (result ≡ Err f)
            × (self.new ≡ self.old) × (events.new ≡ events.old) }
    {
        self.connection.feed(alloc, piece, events)
    }

    /// The octets that ask for the release of an association on this line: a FINISH with an RLRQ in the context 1 of
    /// association control (ISO 8327-1, ISO 8650-1), in its TPKTs.
    pub fn release(alloc: Global, line: Line) -> Result<Octs, AllocError>
        requires { IsExponent line.exponent }
        ensures { IfOk result (λ o. o ≡ tsdu_of line.exponent
            (release_spdu FINISH 1 (release_octets RLRQ))) }
    {
        let finish = write_fn(alloc, 1, &write_rlrq())?;
        tsdu(alloc, line.exponent, finish.as_slice())
    }
}
