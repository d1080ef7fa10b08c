//! A reader and a writer of std as a source and a sink: a call that a signal interrupted is made again.
ghost use Rattle.std.specs.Prelude.{◌≡◌};
ghost use Rattle.std.specs.Io.{ReadsAtMost, WritesAtMost};
ghost use Rattle.std.specs.Io.KnownBytes.{ReadConsumes, WriteAppends, Keeps};

use crate::traits::{Failed, Sink, Source};
use std::io::{Error, ErrorKind, Read, Write};

/// How many calls in a row a signal may interrupt; after n the call has failed.
const TRIES: u32 = 1000;

/// A signal came before the call had done anything.
fn is_interrupted(error: &Error) -> bool {
    error.kind() == ErrorKind::Interrupted
}

/// A read, made again where a signal interrupted it.
fn read_again<R: Read>(inner: &mut R, buf: &mut [u8]) -> Result<usize, Failed>
    ensures bound { ReadsAtMost result buf.new }
    ensures bytes { ReadConsumes (R.remaining inner.old) (R.remaining inner.new) result buf.new }
{
    for _ in 0..TRIES {
        match inner.read(buf) {
            Ok(count) => return Ok(count),
            Err(error) => {
                if !is_interrupted(&error) {
                    return Err(Failed);
                }
            }
        }
    }
    Err(Failed)
}

/// A write, made again where a signal interrupted it.
fn write_again<W: Write>(inner: &mut W, piece: &[u8]) -> Result<usize, Failed>
    ensures bound { WritesAtMost result piece.now }
    ensures bytes { WriteAppends (W.contents inner.old) (W.contents inner.new) result piece.now }
{
    for _ in 0..TRIES {
        match inner.write(piece) {
            Ok(count) => return Ok(count),
            Err(error) => {
                if !is_interrupted(&error) {
                    return Err(Failed);
                }
            }
        }
    }
    Err(Failed)
}

/// A flush, made again where a signal interrupted it.
fn flush_again<W: Write>(inner: &mut W) -> Result<(), Failed>
    ensures bytes { Keeps (W.contents inner.old) (W.contents inner.new) }
{
    for _ in 0..TRIES {
        match inner.flush() {
            Ok(()) => return Ok(()),
            Err(error) => {
                if !is_interrupted(&error) {
                    return Err(Failed);
                }
            }
        }
    }
    Err(Failed)
}

/// A reader of std, whose failed reads are counted. A read that a signal interrupted is none, unless a thousand are
/// in a row.
#[derive(Drop)]
pub struct ReadSource<R> {
    inner: R,
    faults: u64,
}

impl<R> ReadSource<R> {
    /// A source that reads from this reader. It has no fault yet.
    pub fn new(inner: R) -> Self
        ensures { result ≡ record { inner = inner; faults = 0 } }
    {
        ReadSource { inner, faults: 0 }
    }

    /// How many reads failed.
    pub fn faults(&self) -> u64
        ensures { result ≡ self.now.faults }
    {
        self.faults
    }
}

impl<R: Read> Source for ReadSource<R> {
    ghost left = { λ s. R.remaining s.inner };

    ghost faults = { λ s. s.faults };

    fn read(&mut self, buf: &mut [u8]) -> Result<usize, Failed> {
        match read_again(&mut self.inner, buf) {
            Ok(count) => Ok(count),
            Err(Failed) => {
                self.faults = self.faults.saturating_add(1);
                Err(Failed)
            }
        }
    }
}

/// A writer of std, whose failed writes are counted. A write that takes nothing of a piece that isn't empty is one,
/// and so is a flush that fails. One that a signal interrupted is none, unless a thousand are in a row.
#[derive(Drop)]
pub struct WriteSink<W> {
    inner: W,
    faults: u64,
}

impl<W> WriteSink<W> {
    /// A sink that writes to this writer. It has no fault yet.
    pub fn new(inner: W) -> Self
        ensures { result ≡ record { inner = inner; faults = 0 } }
    {
        WriteSink { inner, faults: 0 }
    }

    /// How many writes failed.
    pub fn faults(&self) -> u64
        ensures { result ≡ self.now.faults }
    {
        self.faults
    }

    /// The writer.
    pub fn into_inner(self) -> W
        ensures { result ≡ self.inner }
    {
        self.inner
    }
}

impl<W: Write> Sink for WriteSink<W> {
    ghost taken = { λ s. W.contents s.inner };

    ghost faults = { λ s. s.faults };

    fn write_all(&mut self, piece: &[u8]) -> Result<(), Failed> {
        let mut rest = piece;
        while !rest.is_empty() {
            match write_again(&mut self.inner, rest) {
                Ok(0) | Err(Failed) => {
                    self.faults = self.faults.saturating_add(1);
                    return Err(Failed);
                }
                Ok(count) => rest = &rest[count..],
            }
        }
        match flush_again(&mut self.inner) {
            Ok(()) => Ok(()),
            Err(Failed) => {
                self.faults = self.faults.saturating_add(1);
                Err(Failed)
            }
        }
    }
}
