//! Links: what is both read from and written to, as a connection is.
ghost use Rattle.std.specs.Prelude.{◌≡◌, ◌<◌, length, OnOk, OnErr};
ghost use Rattle.std.specs.Io.{ReadsAtMost};
ghost use Rattle.std.specs.Io.KnownBytes.{ReadConsumes, Appends};
ghost use Rattle.sv_io.specs.Causes.{HasCause, GrowsByFront};

use crate::traits::{Failed, Sink, Source};

/// A source and a sink that leave each other alone: a read takes nothing of what was written, nor a write of what will
/// be read, and neither counts the other's faults.
pub trait Link: Source + Sink {
    /// A read leaves the octets that were taken, and how many writes failed.
    ghost reads_leave_writes: { (l : Self) → Self.Source.beside l ≡ record { octets = Self.taken l; faults = Self.Sink.faults l } };

    /// A write leaves the octets that are left, and how many reads failed.
    ghost writes_leave_reads: { (l : Self) → Self.Sink.beside l ≡ record { octets = Self.left l; faults = Self.Source.faults l } };
}

/// Reads some octets of a link to the front of the buffer, and answers how many. Zero is the end of the input.
pub fn receive<L: Link>(link: &mut L, buf: &mut [u8]) -> Result<usize, Failed>
    requires { 0 < length buf.old }
    ensures bound { ReadsAtMost result buf.new }
    ensures bytes { ReadConsumes (L.left link.old) (L.left link.new) result buf.new }
    ensures cause { HasCause (L.Source.faults link.old) (L.Source.faults link.new) result }
    ensures taken { L.taken link.new ≡ L.taken link.old }
    ensures writes { L.Sink.faults link.new ≡ L.Sink.faults link.old }
{
    link.read(buf)
}

/// Writes the whole piece to a link. After a failure a front of it was taken.
pub fn send<L: Link>(link: &mut L, piece: &[u8]) -> Result<(), Failed>
    ensures ok { OnOk result (Appends (L.taken link.old) (L.taken link.new) piece.now) }
    ensures err { OnErr result (GrowsByFront (L.taken link.old) (L.taken link.new) piece.now) }
    ensures cause { HasCause (L.Sink.faults link.old) (L.Sink.faults link.new) result }
    ensures left { L.left link.new ≡ L.left link.old }
    ensures reads { L.Source.faults link.new ≡ L.Source.faults link.old }
{
    link.write_all(piece)
}

/// A link of a source and a sink, as the two halves of a connection are.
#[derive(Debug, Drop)]
pub struct Duplex<S, K> {
    pub source: S,
    pub sink: K,
}

impl<S: Source, K: Sink> Source for Duplex<S, K> {
    ghost left = { λ d. S.left d.source };

    ghost faults = { λ d. S.faults d.source };

    ghost beside = { λ d. record { octets = K.taken d.sink; faults = K.faults d.sink } };

    fn read(&mut self, buf: &mut [u8]) -> Result<usize, Failed> {
        self.source.read(buf)
    }
}

impl<S: Source, K: Sink> Sink for Duplex<S, K> {
    ghost taken = { λ d. K.taken d.sink };

    ghost faults = { λ d. K.faults d.sink };

    ghost beside = { λ d. record { octets = S.left d.source; faults = S.faults d.source } };

    fn write_all(&mut self, piece: &[u8]) -> Result<(), Failed> {
        self.sink.write_all(piece)
    }
}

impl<S: Source, K: Sink> Link for Duplex<S, K> {
    ghost use Rattle.std.specs.Prelude.{refl};

    ghost reads_leave_writes = { λ _. refl };

    ghost writes_leave_reads = { λ _. refl };
}
