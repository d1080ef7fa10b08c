//! The stack of a connection between two MMS ends: transport (RFC 1006, ISO 8073), session (ISO 8327-1), presentation
//! (ISO 8823-1), association control (ISO 8650-1) and the initiate of MMS (ISO 9506-2).
#![tactic(auto)]

// The two sides, and what both keep of a stream.
mod caller;
mod connection;
mod events;
mod phase;
mod upper;

// What a TSDU does to a connection, and what is sent.
mod called;
mod calling;
mod sending;
mod taking;

// Why a stream is refused, and what is promised of all.
mod cause;
mod fault;
mod laws;
mod running;
mod spelled;

// What comes.
pub use events::{Event, Events, Line};
pub use fault::StackFault;

// The two sides.
pub use caller::Caller;
pub use upper::Upper;

// What is sent.
pub use sending::frames;

// Laws.
pub use laws::{
    a_refused_stream_stays_refused, a_stream_gives_one_list, frames_are_read_back, short_pdus_fit,
};
pub use running::streams_are_run;
pub use spelled::{
    events_are_what_octets_spell, refusals_are_what_octets_lack, what_is_sent_spells_what_is_read,
    what_octets_spell_is_one_thing,
};
