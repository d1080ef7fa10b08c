//! PDUs of MMS, framed for the other side.

ghost use Rattle.std.specs.Prelude.{◌≡◌, ◌<◌, ◌^◌, length, IfOk};
ghost use Rattle.session_pres.specs.Written.{pdv_list};
ghost use Rattle.tpkt_cotp.specs.Written.{IsExponent};
ghost use Rattle.osi_stack.specs.Framed.{framed};

use crate::events::Line;
use session_pres::write_data;
use std::alloc::{AllocError, Global};
use sv_base::Octs;
use tpkt_cotp::tsdu;

/// The octets of a PDU on a connection: in the presentation context of MMS (ISO 8823-1, "User-data"), in a SPDU that
/// carries data (ISO 8327-1), in as few DTs as the TPDU size allows (ISO 8073), each in its TPKT (RFC 1006).
///
/// No content in it may be above 4294967295 octets.
pub fn frames(alloc: Global, line: Line, pdu: &[u8]) -> Result<Octs, AllocError>
    requires exponent { IsExponent line.exponent }
    requires len { length (pdv_list line.context pdu.now) < 2 ^ 32 }
    ensures { IfOk result (λ o. o ≡ framed line pdu.now) }
{
    let data = write_data(alloc, line.context, pdu)?;
    tsdu(alloc, line.exponent, data.as_slice())
}
