//! Why a stream of TPKTs is refused.

ghost use Rattle.std.specs.Prelude.{◌≡◌};
ghost use Rattle.tpkt_cotp.specs.declared.fault.TpFault.TheVariants.{Memory};

use std::alloc::AllocError;

/// Why a stream is refused.
#[derive(Clone, Copy, Debug, PartialEq, Eq)]
pub enum TpFault {
    /// The first octet of a TPKT is not 3, or the second not 0 (RFC 1006, "Packet Format").
    Version,
    /// The length in a TPKT is below 7: no TPDU is that short.
    Length,
    /// A TPDU is of no known form.
    Tpdu,
    /// A connection is asked for in another class than 0.
    Class,
    /// A DT came before the connection, or a CR or CC that was not awaited.
    Sequence,
    /// A TSDU has more than 70000 octets.
    TsduLimit,
    /// There was no memory.
    Memory,
}

impl From<AllocError> for TpFault {
    ghost from_gives = { λ _ e. e ≡ Memory };

    fn from(_e: AllocError) -> TpFault {
        TpFault::Memory
    }
}
