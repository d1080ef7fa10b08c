//! What a TPDU does to a connection (ISO 8073, "Structure and encoding of TPDUs").

ghost use Rattle.std.specs.Prelude.{◌≡◌, true, Ok, MatchResult};
ghost use Rattle.tpkt_cotp.specs.Failing.{Fails};
ghost use Rattle.tpkt_cotp.specs.Tpdu.{Steps, connection_at, connect_at, segment_at, data_at};
ghost use Rattle.tpkt_cotp.specs.Tpdu.{coded_at, tpdu_at};

use crate::codes::{CC, CR, DR, DT, END_OF_TSDU, ER};
use crate::fault::TpFault;
use crate::octets::Gathered;
use crate::parameters::read_parameters;
use crate::tsdus::{Cr, Tsdu};
use std::alloc::Global;
use sv_base::Octs;

/// Where a connection stands between two TPDUs.
#[derive(Debug, Drop)]
pub struct State {
    /// This side dialled, so that it awaits a CC.
    pub dialled: bool,
    /// The awaited CR or CC has come.
    pub connected: bool,
    /// What has come of a TSDU whose last DT has not.
    pub tsdu: Gathered,
}

/// What a CR or a CC says after its code (ISO 8073, "Connection Request (CR) TPDU").
fn read_connection(alloc: Global, li: u8, rest: &[u8]) -> Result<Cr, TpFault>
    ensures { MatchResult result (λ cr. connection_at li rest.now ≡ Ok cr)
        (λ f. Fails f (connection_at li rest.now)) }
{
    match rest {
        [_, _, c, d, class, more @ ..] => {
            if li < 6 {
                return Err(TpFault::Tpdu);
            }
            if *class >= 16 {
                return Err(TpFault::Class);
            }
            if usize::from(li) != 6 + more.len() {
                return Err(TpFault::Tpdu);
            }
            let mut cr = Cr {
                src: u16::from(*c) * 256 + u16::from(*d),
                size: None,
                calling: None,
                called: None,
            };
            read_parameters(alloc, &mut cr, more)?;
            Ok(cr)
        }
        _ => Err(TpFault::Tpdu),
    }
}

/// Takes a CR or a CC, which may be the one that is awaited.
fn take_connection(
    alloc: Global,
    state: &mut State,
    is_awaited: bool,
    li: u8,
    rest: &[u8],
) -> Result<Option<Tsdu>, TpFault>
    ensures { Steps result state.new (connect_at state.old is_awaited li rest.now) }
{
    if !is_awaited || state.connected {
        return Err(TpFault::Sequence);
    }
    let cr = read_connection(alloc, li, rest)?;
    state.connected = true;
    Ok(Some(Tsdu::Connect(cr)))
}

/// Takes the NR of a DT and its data (ISO 8073, "Data (DT) TPDU").
fn take_segment(alloc: Global, state: &mut State, rest: &[u8]) -> Result<Option<Tsdu>, TpFault>
    requires { state.old.connected ≡ true }
    ensures { Steps result state.new (segment_at state.old rest.now) }
{
    match rest {
        [nr, octets @ ..] => {
            let gathered = state.tsdu.as_slice().len();
            if octets.len() > 70000 || gathered > 70000 - octets.len() {
                return Err(TpFault::TsduLimit);
            }
            state.tsdu.append(alloc, octets)?;
            if *nr < END_OF_TSDU {
                return Ok(None);
            }
            Ok(Some(Tsdu::Data(Octs::from_vec(state.tsdu.take(alloc)))))
        }
        _ => Err(TpFault::Tpdu),
    }
}

fn take_data(alloc: Global, state: &mut State, li: u8, rest: &[u8]) -> Result<Option<Tsdu>, TpFault>
    ensures { Steps result state.new (data_at state.old li rest.now) }
{
    if !state.connected {
        return Err(TpFault::Sequence);
    }
    if li != 2 {
        return Err(TpFault::Tpdu);
    }
    take_segment(alloc, state, rest)
}

fn take_coded(
    alloc: Global,
    state: &mut State,
    li: u8,
    code: u8,
    rest: &[u8],
) -> Result<Option<Tsdu>, TpFault>
    ensures { Steps result state.new (coded_at state.old li code rest.now) }
{
    let dialled = state.dialled;
    match code {
        DT => take_data(alloc, state, li, rest),
        CR => take_connection(alloc, state, !dialled, li, rest),
        CC => take_connection(alloc, state, dialled, li, rest),
        DR | ER => Ok(Some(Tsdu::Disconnect)),
        _ => Err(TpFault::Tpdu),
    }
}

/// Takes one TPDU (ISO 8073, "Structure and encoding of TPDUs").
#[tactic(auto, unfolding(crate::specs::Tpdu::tpdu_at))]
pub fn take_tpdu(alloc: Global, state: &mut State, tpdu: &[u8]) -> Result<Option<Tsdu>, TpFault>
    ensures { Steps result state.new (tpdu_at state.old tpdu.now) }
{
    match tpdu {
        [li, code, rest @ ..] => {
            if *li == 0 || usize::from(*li) > 1 + rest.len() {
                return Err(TpFault::Tpdu);
            }
            take_coded(alloc, state, *li, *code, rest)
        }
        _ => Err(TpFault::Tpdu),
    }
}
