//! Links that are dialled, and ends that are told what to open.

ghost use Rattle.std.specs.Prelude.{◌≡◌, ℕ, List, Option, OnOk};
ghost use Rattle.sv_io.specs.Causes.{HasCause};
ghost use Rattle.sv_io.specs.Connections.{IsReached};

use crate::link::Link;
use crate::traits::{Failed, Sink, Source};
use std::alloc::AllocError;

/// A link that is dialled: from the first dial that succeeds on, it reads and writes the connection that was made last,
/// and an earlier one has ended. A read or a write before is a fault. What it took is of all connections.
pub trait Dial: Link {
    /// The octets that the next connection will give, where they are told.
    ghost comes: { Self → Option (List ℕ) };

    /// How many dials have failed. At 2^64 - 1 it stays.
    ghost dials: { Self → ℕ };

    /// Ends the connection that there is, and makes one to this address. It may wait.
    fn dial(&mut self, address: &str) -> Result<(), Failed>
        ensures reached { OnOk result (IsReached (comes self.old) (Self.left self.new)) }
        ensures cause { HasCause (dials self.old) (dials self.new) result }
        ensures taken { Self.taken self.new ≡ Self.taken self.old }
        ensures reads { Self.Source.faults self.new ≡ Self.Source.faults self.old }
        ensures writes { Self.Sink.faults self.new ≡ Self.Sink.faults self.old };
}

/// An end that is told what to open before it is used. No contract says that it opens it.
pub trait Named {
    /// Takes the name of a file, or an address. The one error is out of memory.
    fn name(&mut self, text: &str) -> Result<(), AllocError>;
}
