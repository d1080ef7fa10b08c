//! What has come of a connection's stream, on either side.

ghost use Rattle.std.specs.Prelude.{◌≡◌, ◌≢◌, ◌<◌, [], ◌++◌, length, false, IfOk, MatchResult};
ghost use Rattle.std.specs.Option.{option_to_list};
ghost use Rattle.std.specs.List.{AllByRecursion};
ghost use Rattle.tpkt_cotp.specs.Stream.{gift};
ghost use Rattle.tpkt_cotp.specs.Written.{Fits};
ghost use Rattle.osi_stack.specs.Lines.{IsAgreed};
ghost use Rattle.osi_stack.specs.Stream.{has_ended};
ghost use Rattle.osi_stack.specs.Going.{IsUsable, fault_at, Adds, Stays, AddsTpkt, StaysTpkt, Went};
ghost use Rattle.osi_stack.specs.Going.{IsHalted, WentAll, Halts};

use crate::cause::Stop;
use crate::events::Events;
use crate::fault::StackFault;
use crate::phase::Phase;
use crate::taking::take;
use std::alloc::Global;
use std::marker::Model;
use tpkt_cotp::{Tpkt, TransportIn, Tsdu};

/// What a connection keeps of its stream between two pieces.
#[derive(Debug, Drop)]
pub struct Link {
    pub transport: TransportIn,
    pub phase: Phase,
    /// How many octets the whole TPKTs have that were taken, as far as the number goes.
    pub octets: u64,
}

impl Phase {
    /// What follows is disregarded.
    fn has_ended(self) -> bool
        ensures { result ≡ has_ended self }
    {
        matches!(self, Phase::Ended)
    }
}

impl Stop {
    /// The fault of a connection that had taken n octets.
    fn behind(self, octets: u64) -> StackFault
        ensures { result ≡ fault_at self octets }
    {
        match self {
            Stop::Memory => StackFault::Memory,
            Stop::Refused(cause) => StackFault::Refused {
                layer: cause.layer,
                code: cause.code,
                octets,
            },
        }
    }
}

/// Takes what a TPKT gave, and adds what that comes to.
fn take_given(
    alloc: Global,
    phase: &mut Phase,
    given: &Option<Tsdu>,
    events: &mut Events,
) -> Result<(), Stop>
    requires agreed { IsAgreed phase.old }
    requires fits { AllByRecursion Fits (option_to_list given.now) }
    ensures { MatchResult result
        (λ _. Adds phase.old given.now phase.new events.old events.new)
        (λ s. Stays s phase.old given.now events.old events.new) }
{
    let Some(tsdu) = given else {
        return Ok(());
    };
    let (next, event) = take(alloc, *phase, tsdu)?;
    if let Some(event) = event {
        events.push(event)?;
    }
    *phase = next;
    Ok(())
}

/// Takes what stepping gave: nothing where no TPKT is whole yet.
fn take_tpkt(
    alloc: Global,
    phase: &mut Phase,
    octets: &mut u64,
    taken: Option<Tpkt>,
    events: &mut Events,
) -> Result<(), Stop>
    requires agreed { IsAgreed phase.old }
    requires fits { AllByRecursion Fits (option_to_list (gift taken)) }
    ensures { MatchResult result
        (λ _. AddsTpkt phase.old octets.old taken phase.new octets.new events.old events.new)
        (λ s. StaysTpkt s phase.old taken events.old events.new × (octets.new ≡ octets.old)) }
{
    if let Some(packet) = taken {
        take_given(alloc, phase, &packet.tsdu, events)?;
        *octets = octets.saturating_add(packet.octets as u64);
    }
    Ok(())
}

/// Takes the piece up to the end of a TPKT, and gives what follows.
fn take_packet<'a>(
    alloc: Global,
    link: &mut Link,
    piece: &'a [u8],
    events: &mut Events,
) -> Result<&'a [u8], Stop>
    requires usable { IsUsable link.old }
    requires on { has_ended link.old.phase ≡ false }
    requires some { piece.now ≢ [] }
    ensures goes { MatchResult result
        (λ rest. Went link.old link.new piece.now rest.now events.old events.new)
        (λ s. IsHalted s link.old piece.now link.new events.old events.new) }
    ensures shorter { IfOk result (λ rest. length rest.now < length piece.now) }
{
    let (taken, rest) = link.transport.step(alloc, piece)?;
    take_tpkt(alloc, &mut link.phase, &mut link.octets, taken, events)?;
    Ok(rest)
}

/// Takes the next piece, up to the end of the association.
pub fn take_piece(
    alloc: Global,
    link: &mut Link,
    piece: &[u8],
    events: &mut Events,
) -> Result<(), StackFault>
    requires { IsUsable link.old }
    ensures { MatchResult result
        (λ _. WentAll link.old link.new piece.now events.old events.new)
        (λ f. Halts f link.old piece.now events.old events.new) }
{
    let mut rest = piece;
    while !rest.is_empty() && !link.phase.has_ended() {
        rest = match take_packet(alloc, link, rest, events) {
            Ok(behind) => behind,
            Err(stop) => return Err(stop.behind(link.octets)),
        };
    }
    Ok(())
}

/// What has come of a stream on one connection, and the refusal that it was answered with, seen by contracts as the two.
#[derive(Debug, Drop)]
pub struct Connection {
    link: Link,
    refused: Option<StackFault>,
}

impl Model for Connection {
    ghost use Rattle.std.specs.Prelude.{◌≡◌, Option, None};
    ghost use Rattle.osi_stack.specs.declared.connection.Link.{Link};
    ghost use Rattle.osi_stack.specs.declared.fault.StackFault.{StackFault};
    ghost use Rattle.osi_stack.specs.Going.{IsUsable};

    ghost Value = { Link × Option StackFault };

    ghost view = { λ c. (c.link, c.refused) };

    ghost invariant = { λ c. c.refused ≡ None → IsUsable c.link };
}

impl Connection {
    ghost use Rattle.std.specs.Prelude.{◌≡◌, ℕ, true, false, List, [], ◌++◌, Some, Err, IfErr};
    ghost use Rattle.std.specs.Prelude.{MatchResult};
    ghost use Rattle.std.specs.List.{AllByRecursion};
    ghost use Rattle.tpkt_cotp.specs.Stream.{StandsFor};
    ghost use Rattle.osi_stack.specs.declared.events.Event.{Event};
    ghost use Rattle.osi_stack.specs.declared.fault.StackFault.{StackFault};
    ghost use Rattle.osi_stack.specs.declared.phase.Phase.TheVariants.{Idle, Calling};
    ghost use Rattle.osi_stack.specs.Lines.{HasLine, IsProposal};
    ghost use Rattle.osi_stack.specs.Stream.{Stand, called, calling};
    ghost use Rattle.osi_stack.specs.Standing.{IsAt, HasStopped, MovesOn, StopsAt};

    /// Nothing has come, on the side that was called.
    pub fn called() -> Connection
        ensures { IsAt result called [] [] }
    {
        Connection {
            link: Link {
                transport: TransportIn::new(),
                phase: Phase::Idle,
                octets: 0,
            },
            refused: None,
        }
    }

    /// Nothing has come, on the side that calls and will propose PDUs of at most this size.
    pub fn calling(size: u32) -> Connection
        requires { IsProposal size }
        ensures { IsAt result (calling size) [] [] }
    {
        Connection {
            link: Link {
                transport: TransportIn::dialled(),
                phase: Phase::Calling(size),
                octets: 0,
            },
            refused: None,
        }
    }

    /// Takes the next piece of the stream, and adds what the whole TPKTs in it come to.
    pub fn feed(
        &mut self,
        alloc: Global,
        piece: &[u8],
        events: &mut Events,
    ) -> Result<(), StackFault>
        ensures stands { (from : Stand) (octets : List ℕ) (so_far : List Event)
            → IsAt self.old from octets so_far → MatchResult result
            (λ _. MovesOn self.new from (octets ++ piece.now) so_far events.old events.new)
            (λ f. StopsAt f from (octets ++ piece.now) so_far events.old events.new) }
        ensures lines { AllByRecursion HasLine events.old → AllByRecursion HasLine events.new }
        ensures refuses { IfErr result (λ f. HasStopped self.new f) }
        ensures again { (f : StackFault) → HasStopped self.old f → (result ≡ Err f)
            × (self.new ≡ self.old) × (events.new ≡ events.old) }
    {
        if let Some(fault) = self.refused {
            return Err(fault);
        }
        let done = take_piece(alloc, &mut self.link, piece, events);
        if let Err(fault) = done {
            self.refused = Some(fault);
        }
        done
    }
}
