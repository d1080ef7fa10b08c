//! Where connections come from.

ghost use Rattle.std.specs.Prelude.{ℕ};
ghost use Rattle.sv_io.specs.Causes.{HasCause};
ghost use Rattle.sv_io.specs.Accepts.{CountsAccept};

use crate::traits::{Failed, Sink, Source};

/// What connections are accepted from, each a source and a sink.
pub trait Listener {
    type In: Source + Send + Drop;

    type Out: Sink + Send + Drop;

    /// How many connections were accepted. At 2^64 - 1 it stays, and then no more are.
    ghost accepted: { Self → ℕ };

    /// How many accepts have failed. At 2^64 - 1 it stays.
    ghost faults: { Self → ℕ };

    /// Accepts the next connection. It may wait.
    fn accept(&mut self) -> Result<(Self::In, Self::Out), Failed>
        ensures cause { HasCause (faults self.old) (faults self.new) result }
        ensures count { CountsAccept (accepted self.old) (accepted self.new) result };
}
