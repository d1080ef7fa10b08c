//! The transport layer of a connection: TPKTs (RFC 1006) and the TPDUs of class 0 in them (ISO 8073), read from a
//! stream however it is cut, and written.
//!
//! [`TransportIn`] takes the octets of a stream and gives [`Tsdu`]s. [`call`], [`confirm`] and [`tsdu`] write what goes
//! the other way.
#![tactic(auto)]

// The octets: codes, a TPKT, the parameters of a CR and a CC, what a TPDU does, and what is written.
mod codes;
mod packet;
mod parameters;
mod state;
mod writing;

// The stream, and what it keeps, gives and is refused for.
mod fault;
mod octets;
mod transport;
mod tsdus;

// What is promised of all streams.
mod laws;

// Reading.
pub use fault::TpFault;
pub use transport::TransportIn;
pub use tsdus::{Cr, Tpkt, Tsdu, Tsdus};

// Writing.
pub use writing::{call, confirm, tsdu};

// Laws.
pub use laws::{
    a_connection_is_read_back, a_stream_gives_one_list, a_tsdu_is_read_back, little_is_kept,
    tpdus_are_read_as_spelled, tpkts_are_read_as_spelled, what_a_cr_says_is_confirmed,
};
