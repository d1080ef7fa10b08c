//! A TPKT: cut from the front of octets, and completed piece by piece (RFC 1006, "Packet Format").

ghost use Rattle.std.specs.Prelude.{◌≡◌, IfOk};
ghost use Rattle.std.specs.Option.{option_map};
ghost use Rattle.ber_grammar.specs.Reader.{Gives};
ghost use Rattle.tpkt_cotp.specs.Packet.{packet_at, body_at, wanted_at, TopsUp, Completes};

use crate::fault::TpFault;
use crate::octets::Gathered;
use std::alloc::{AllocError, Global};

/// The TPDU of a TPKT whose length is this and what follows it.
fn body_of(len: usize, rest: &[u8]) -> Result<Option<(&[u8], &[u8])>, TpFault>
    ensures { Gives (λ x. option_map (λ p. (p.0.now, p.1.now)) x) result (body_at len rest.now) }
{
    if len < 7 {
        return Err(TpFault::Length);
    }
    if rest.len() < len - 4 {
        return Ok(None);
    }
    Ok(Some(rest.split_at(len - 4)))
}

/// The first TPKT's TPDU and what follows, or None where none is whole yet (RFC 1006, "Packet Format").
#[tactic(auto, unfolding(crate::specs::Packet::packet_at))]
pub fn packet_of(input: &[u8]) -> Result<Option<(&[u8], &[u8])>, TpFault>
    ensures { Gives (λ x. option_map (λ p. (p.0.now, p.1.now)) x) result (packet_at input.now) }
{
    match input {
        [] => Ok(None),
        [3] => Ok(None),
        [3, 0] => Ok(None),
        [3, 0, _] => Ok(None),
        [3, 0, c, d, rest @ ..] => body_of(usize::from(*c) * 256 + usize::from(*d), rest),
        _ => Err(TpFault::Version),
    }
}

/// How many octets a TPKT that began so wants next: those of its header, or else those of its TPDU.
#[tactic(auto, unfolding(crate::specs::Packet::wanted_at))]
fn wanted(held: &[u8]) -> usize
    ensures { result ≡ wanted_at held.now }
{
    match held {
        [] => 4,
        [_] => 3,
        [_, _] => 2,
        [_, _, _] => 1,
        [_, _, c, d, rest @ ..] => (usize::from(*c) * 256 + usize::from(*d)).saturating_sub(
            4 + rest.len(),
        ),
    }
}

/// Moves to the held octets what their TPKT wants next, as far as the piece has it, and gives the rest of the piece.
fn top_up<'a>(alloc: Global, held: &mut Gathered, piece: &'a [u8]) -> Result<&'a [u8], AllocError>
    ensures { IfOk result (λ rest. TopsUp held.old piece.now held.new rest.now) }
{
    let count = wanted(held.as_slice()).min(piece.len());
    let (front, rest) = piece.split_at(count);
    held.append(alloc, front)?;
    Ok(rest)
}

/// Moves to the held octets the rest of their TPKT's header and then of its TPDU, as far as the piece has them, and gives
/// the rest of the piece.
pub fn complete<'a>(
    alloc: Global,
    held: &mut Gathered,
    piece: &'a [u8],
) -> Result<&'a [u8], AllocError>
    ensures { IfOk result (λ rest. Completes held.old piece.now held.new rest.now) }
{
    let behind = top_up(alloc, held, piece)?;
    top_up(alloc, held, behind)
}
