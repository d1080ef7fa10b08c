//! The ends of the server outside: connections of TCP, files by their names, and the clock of the system.
//!
//! None of them gives its octets away: what contracts say of them is that a call answers `Failed` only where its count of faults rose.
#![tactic(auto)]

mod clock;
mod dial;
mod listen;
mod options;
mod path;
mod stream;

pub use clock::SystemClock;
pub use dial::TcpDial;
pub use listen::TcpListen;
pub use path::PathSource;
pub use stream::{SharedStream, TcpIn, TcpOut};
