//! What whole TPKTs give: a connection, TSDUs, and its end.

use sv_base::{List, Octs};

/// What a CR or a CC says of a connection (ISO 8073, "Connection Request (CR) TPDU", "Connection Confirm (CC) TPDU").
#[derive(Debug, Drop)]
pub struct Cr {
    /// SRC-REF, the sender's reference.
    pub src: u16,
    /// The exponent of the TPDU size, 7 to 13, where it was said.
    pub size: Option<u8>,
    /// The calling transport selector, where it was said.
    pub calling: Option<Octs>,
    /// The called transport selector, where it was said.
    pub called: Option<Octs>,
}

/// What whole TPKTs give.
#[derive(Debug, Drop)]
pub enum Tsdu {
    /// The connection: what the other side's CR says, or on a dialled connection its CC.
    Connect(Cr),
    /// A whole TSDU.
    Data(Octs),
    /// A DR or an ER.
    Disconnect,
}

/// A TPKT that came whole.
#[derive(Debug, Drop)]
pub struct Tpkt {
    /// How many octets it has, 7 to 65535, with those of its header.
    pub octets: usize,
    /// What it gave: a DT that doesn't end its TSDU gives nothing.
    pub tsdu: Option<Tsdu>,
}

/// What TPKTs gave, in order, seen by contracts as the list of it.
pub type Tsdus = List<Tsdu>;
