//! What octets are read from and written to: each end counts its faults.
ghost use Rattle.std.specs.Prelude.{◌≡◌, ℕ, ◌<◌, List, Option, length, OnOk, OnErr};
ghost use Rattle.std.specs.Io.{ReadsAtMost};
ghost use Rattle.std.specs.Io.KnownBytes.{ReadConsumes, Appends};
ghost use Rattle.sv_io.specs.Causes.{HasCause, GrowsByFront};
ghost use Rattle.sv_io.specs.Ends.{End, no_end};

/// A read or a write failed.
#[derive(Clone, Copy, Debug)]
pub struct Failed;

/// What octets are read from.
pub trait Source {
    /// The octets that reads will give from here on, where they are told.
    ghost left: { Self → Option (List ℕ) };

    /// How many reads have failed. At 2^64 - 1 it stays.
    ghost faults: { Self → ℕ };

    /// What reads leave as it is: of a link the end that is written to, of another source nothing.
    ghost beside: { Self → End } = { λ _. no_end };

    /// Reads some octets to the front of the buffer, and answers how many. Zero is the end of the input.
    fn read(&mut self, buf: &mut [u8]) -> Result<usize, Failed>
        requires { 0 < length buf.old }
        ensures bound { ReadsAtMost result buf.new }
        ensures bytes { ReadConsumes (left self.old) (left self.new) result buf.new }
        ensures cause { HasCause (faults self.old) (faults self.new) result }
        ensures beside { beside self.new ≡ beside self.old };
}

/// What octets are written to.
pub trait Sink {
    /// The octets that were taken, where they are told.
    ghost taken: { Self → Option (List ℕ) };

    /// How many writes have failed. At 2^64 - 1 it stays.
    ghost faults: { Self → ℕ };

    /// What writes leave as it is: of a link the end that is read from, of another sink nothing.
    ghost beside: { Self → End } = { λ _. no_end };

    /// Writes the whole piece. After a failure a front of it was taken.
    fn write_all(&mut self, piece: &[u8]) -> Result<(), Failed>
        ensures ok { OnOk result (Appends (taken self.old) (taken self.new) piece.now) }
        ensures err { OnErr result (GrowsByFront (taken self.old) (taken self.new) piece.now) }
        ensures cause { HasCause (faults self.old) (faults self.new) result }
        ensures beside { beside self.new ≡ beside self.old };
}
