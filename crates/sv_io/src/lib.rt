//! The ends of the server: what it reads octets from and writes them to, where connections come from, and clocks.
//!
//! Each end counts its faults, and a call answers [`Failed`] only where that count rose.
#![tactic(auto)]

pub mod bell;
pub mod calls;
pub mod clock;
pub mod dial;
pub mod gate;
pub mod link;
pub mod listener;
pub mod mem_dial;
pub mod mem_sink;
pub mod mem_source;
pub mod outside;
pub mod pieces;
pub mod traits;
pub mod whole;

pub use bell::BellClock;
pub use calls::Calls;
pub use clock::{Clock, FixedClock};
pub use dial::{Dial, Named};
pub use gate::{Gate, OpenGate};
pub use link::{Duplex, Link, receive, send};
pub use listener::Listener;
pub use mem_dial::MemDial;
pub use mem_sink::MemSink;
pub use mem_source::MemSource;
pub use outside::{ReadSource, WriteSink};
pub use pieces::read_piece;
pub use traits::{Failed, Sink, Source};
pub use whole::{Unread, read_whole};
