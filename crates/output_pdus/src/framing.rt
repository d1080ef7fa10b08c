//! PDUs in their TPKTs.

ghost use Rattle.std.specs.Prelude.{◌≡◌, ◌≤◌, length, IfOk};
ghost use Rattle.osi_stack.specs.Framed.{framed};
ghost use Rattle.osi_stack.specs.Lines.{IsLine};

use osi_stack::{Line, frames};
use std::alloc::{AllocError, Global};
use sv_base::Octs;

/// The TPKTs of a PDU of at most 65000 octets on a line (RFC 1006, TPKT). Fails only when out of memory.
#[tactic(auto, using(crate::proofs::FrameLaws::pdu_fits))]
pub fn tpkts_of(alloc: Global, line: Line, pdu: &[u8]) -> Result<Octs, AllocError>
    requires line { IsLine line }
    requires short { length pdu.now ≤ 65000 }
    ensures { IfOk result (λ o. o ≡ framed line pdu.now) }
{
    frames(alloc, line, pdu)
}
