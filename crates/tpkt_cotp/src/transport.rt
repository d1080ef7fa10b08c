//! A stream, taken in pieces: what is held of a TPKT that is not whole, and what the whole ones give.

ghost use Rattle.std.specs.Prelude.{◌≡◌, ℕ, Bool, true, false, List, [], ◌∷◌, ◌++◌, ◌≢◌, length};
ghost use Rattle.std.specs.Prelude.{Ok, Err, is_ok, if◌then◌else◌, IfErr, MatchResult};
ghost use Rattle.std.specs.Option.{option_to_list};
ghost use Rattle.tpkt_cotp.specs.declared.fault.TpFault.{TpFault};
ghost use Rattle.tpkt_cotp.specs.declared.fault.TpFault.TheVariants.{Memory};
ghost use Rattle.tpkt_cotp.specs.declared.tsdus.Tsdu.{Tsdu};
ghost use Rattle.ber_grammar.specs.Octets.{IsBytes};
ghost use Rattle.tpkt_cotp.specs.Failing.{Fails};
ghost use Rattle.tpkt_cotp.specs.Packet.{packet, IsPartial};
ghost use Rattle.tpkt_cotp.specs.Tpdu.{tpdu_at};
ghost use Rattle.tpkt_cotp.specs.Stream.{TookAll, StopsAt, StandsFor, HasRefused, GoesOn, Refuses};
ghost use Rattle.tpkt_cotp.specs.Stream.{gift, Advances, FailsAt, IsReady, StepsFrom};
ghost use Rattle.tpkt_cotp.specs.Stream.{StepFails, StepsOn, IsRefused};

use crate::fault::TpFault;
use crate::octets::Gathered;
use crate::packet::{complete, packet_of};
use crate::state::{State, take_tpdu};
use crate::tsdus::{Tpkt, Tsdus};
use std::alloc::{AllocError, Global};

/// Takes the TPDU of a whole TPKT.
fn taken_of(alloc: Global, state: &mut State, tpdu: &[u8]) -> Result<Tpkt, TpFault>
    ensures { MatchResult result
        (λ x. (x.octets ≡ length (packet tpdu.now))
        × (tpdu_at state.old tpdu.now ≡ Ok (state.new, x.tsdu)))
        (λ f. Fails f (tpdu_at state.old tpdu.now)) }
{
    let tsdu = take_tpdu(alloc, state, tpdu)?;
    Ok(Tpkt {
        octets: 4 + tpdu.len(),
        tsdu,
    })
}

/// Takes the TPKT at the front of the piece, or holds the piece where none is whole there.
fn begin<'a>(
    alloc: Global,
    held: &mut Gathered,
    state: &mut State,
    piece: &'a [u8],
) -> Result<(Option<Tpkt>, &'a [u8]), TpFault>
    requires { held.old ≡ [] }
    ensures { MatchResult result
        (λ x. Advances state.old held.old piece.now state.new held.new x.0 x.1.now)
        (λ f. FailsAt f state.old (held.old ++ piece.now)) }
{
    let Some((tpdu, rest)) = packet_of(piece)? else {
        held.append(alloc, piece)?;
        return Ok((None, &[]));
    };
    let taken = taken_of(alloc, state, tpdu)?;
    Ok((Some(taken), rest))
}

/// Completes the TPKT that is held, as far as the piece has it.
fn go_on<'a>(
    alloc: Global,
    held: &mut Gathered,
    state: &mut State,
    piece: &'a [u8],
) -> Result<(Option<Tpkt>, &'a [u8]), TpFault>
    ensures { IsBytes held.old → IsPartial held.old → MatchResult result
        (λ x. Advances state.old held.old piece.now state.new held.new x.0 x.1.now)
        (λ f. FailsAt f state.old (held.old ++ piece.now)) }
{
    let rest = complete(alloc, held, piece)?;
    let Some((tpdu, _)) = packet_of(held.as_slice())? else {
        return Ok((None, rest));
    };
    let taken = taken_of(alloc, state, tpdu)?;
    held.clear();
    Ok((Some(taken), rest))
}

/// Takes octets up to the end of a TPKT.
fn advance<'a>(
    alloc: Global,
    held: &mut Gathered,
    state: &mut State,
    piece: &'a [u8],
) -> Result<(Option<Tpkt>, &'a [u8]), TpFault>
    ensures { IsBytes held.old → IsPartial held.old → MatchResult result
        (λ x. Advances state.old held.old piece.now state.new held.new x.0 x.1.now)
        (λ f. FailsAt f state.old (held.old ++ piece.now)) }
{
    if held.as_slice().is_empty() {
        return begin(alloc, held, state, piece);
    }
    go_on(alloc, held, state, piece)
}

/// Adds what a TPKT gave, if one came whole and gave something; without memory nothing changes.
fn add(taken: Option<Tpkt>, out: &mut Tsdus) -> Result<(), AllocError>
    ensures { out.new ≡ (if is_ok result then out.old ++ option_to_list (gift taken) else out.old) }
{
    match taken {
        Some(
            Tpkt {
                tsdu: Some(tsdu),
                ..
            },
        ) => out.push(tsdu),
        _ => Ok(()),
    }
}

/// Takes the whole TPKTs at the front of the piece, and holds what follows them.
fn take_whole(
    alloc: Global,
    held: &mut Gathered,
    state: &mut State,
    piece: &[u8],
    out: &mut Tsdus,
) -> Result<(), TpFault>
    requires { held.old ≡ [] }
    ensures { MatchResult result
        (λ _. TookAll state.old piece.now out.old state.new held.new out.new)
        (λ f. StopsAt f state.old piece.now out.old out.new) }
{
    let mut rest = piece;
    while !rest.is_empty() {
        let (taken, after) = begin(alloc, held, state, rest)?;
        add(taken, out)?;
        rest = after;
    }
    Ok(())
}

/// Takes the next piece, after what is held.
fn take_piece(
    alloc: Global,
    held: &mut Gathered,
    state: &mut State,
    piece: &[u8],
    out: &mut Tsdus,
) -> Result<(), TpFault>
    ensures { IsBytes held.old → IsPartial held.old → MatchResult result
        (λ _. TookAll state.old (held.old ++ piece.now) out.old state.new held.new out.new)
        (λ f. StopsAt f state.old (held.old ++ piece.now) out.old out.new) }
{
    if held.as_slice().is_empty() {
        return take_whole(alloc, held, state, piece, out);
    }
    let (taken, rest) = go_on(alloc, held, state, piece)?;
    add(taken, out)?;
    if !held.as_slice().is_empty() {
        return Ok(());
    }
    take_whole(alloc, held, state, rest, out)
}

/// What has come of a stream of TPKTs (RFC 1006) on one connection. It keeps at most one TPKT that is not whole and the
/// TSDU whose last DT has not come.
///
/// Contracts say what it stands for: the octets that it was fed, and what it gave for them.
#[derive(Debug, Drop)]
pub struct TransportIn {
    held: Gathered,
    state: State,
    refused: Option<TpFault>,
}

impl TransportIn {
    fn opened(dialled: bool) -> TransportIn
        ensures { StandsFor result dialled [] [] }
    {
        TransportIn {
            held: Gathered::new(),
            state: State {
                dialled,
                connected: false,
                tsdu: Gathered::new(),
            },
            refused: None,
        }
    }

    /// Nothing has come, on a connection that the other side dialled: a CR comes first.
    pub fn new() -> TransportIn
        ensures { StandsFor result false [] [] }
    {
        TransportIn::opened(false)
    }

    /// Nothing has come, on a connection that this side dialled: a CC comes first.
    pub fn dialled() -> TransportIn
        ensures { StandsFor result true [] [] }
    {
        TransportIn::opened(true)
    }

    /// Takes the next piece of the stream, and adds what the whole TPKTs in it give.
    ///
    /// A TPKT whose first octet is not 3 or whose second is not 0 is refused as soon as that octet is there, and a length
    /// below 7 as soon as the four octets of the header are; all else when the TPKT is whole. What the TPKTs before a
    /// refused one give is added. From then on each call answers the same refusal and changes nothing.
    ///
    /// Of a whole TPDU the first that is wrong counts: LI, which is 0 or passes the end (`Tpdu`); the code, which is unknown
    /// (`Tpdu`) or out of turn (`Sequence`); then what follows. Of a CR or a CC that is LI, which counts as far as the class
    /// (`Tpdu`), the class (`Class`), and data after the header or parameters of another form (`Tpdu`); of a DT its LI,
    /// which is 2 (`Tpdu`), and the limit of the TSDU (`TsduLimit`).
    pub fn feed(&mut self, alloc: Global, piece: &[u8], out: &mut Tsdus) -> Result<(), TpFault>
        // However the stream was cut before: the object stands for it with this piece, or the stream is refused.
        ensures stands { (dialled : Bool) (octets : List ℕ) (so_far : List Tsdu)
            → StandsFor self.old dialled octets so_far → MatchResult result
            (λ _. GoesOn self.new dialled (octets ++ piece.now) so_far out.old out.new)
            (λ f. Refuses f dialled (octets ++ piece.now) so_far out.old out.new) }
        // What it refuses with it answers again.
        ensures refuses { IfErr result (λ f. HasRefused self.new f) }
        ensures again { (f : TpFault) → HasRefused self.old f → (result ≡ Err f)
            × (self.new ≡ self.old) × (out.new ≡ out.old) }
    {
        if let Some(fault) = self.refused {
            return Err(fault);
        }
        let done = take_piece(alloc, &mut self.held, &mut self.state, piece, out);
        if let Err(fault) = done {
            self.refused = Some(fault);
        }
        done
    }

    /// Takes the next piece of the stream up to the end of the TPKT that it goes on or begins, and gives the TPKT, if it
    /// is whole now, and the rest of the piece. What is refused, and when, is as [`TransportIn::feed`] has it.
    ///
    /// At each call with an octet at least one octet is taken.
    pub fn step<'a>(
        &mut self,
        alloc: Global,
        piece: &'a [u8],
    ) -> Result<(Option<Tpkt>, &'a [u8]), TpFault>
        // Of an object that refused nothing: a TPKT was taken, or all of the piece is held, or no legal TPKT stands there.
        ensures one { IsReady self.old → MatchResult result
            (λ x. StepsFrom self.old self.new piece.now x.0 x.1.now)
            (λ f. StepFails f self.old piece.now) }
        // However the stream was cut before: the object stands for it with what was taken, or the stream is refused.
        ensures stands { (dialled : Bool) (octets : List ℕ) (so_far : List Tsdu)
            → StandsFor self.old dialled octets so_far → MatchResult result
            (λ x. StepsOn self.new dialled octets so_far piece.now x.0 x.1.now)
            (λ f. f ≢ Memory → IsRefused dialled (octets ++ piece.now) so_far f) }
        ensures refuses { IfErr result (λ f. HasRefused self.new f) }
        ensures again { (f : TpFault) → HasRefused self.old f → (result ≡ Err f)
            × (self.new ≡ self.old) }
    {
        if let Some(fault) = self.refused {
            return Err(fault);
        }
        let done = advance(alloc, &mut self.held, &mut self.state, piece);
        if let Err(why) = done {
            self.refused = Some(why);
        }
        done
    }
}
