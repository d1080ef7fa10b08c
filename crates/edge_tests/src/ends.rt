//! Readers and writers of std as sources and sinks: short reads and writes, failures in mid-stream, and calls that a signal
//! interrupts.

ghost use Rattle.std.specs.Prelude.{◌≤◌, IfOk};

use std::io::{self, Error, ErrorKind, Read, Write};
use std::test::*;
use sv_io::{Failed, ReadSource, Sink, Source, WriteSink};

/// A reader and writer that gives or takes at most two octets a call. Its first calls are interrupted, that many, and two of
/// the others are the one that fails and the one that gives or takes nothing, by their numbers from 1; 0 is none.
#[derive(Clone, Copy)]
struct End {
    interrupted: u32,
    fails: u32,
    nothing: u32,
}

/// An end in use, and how many calls there were.
#[derive(Drop)]
struct Used {
    end: End,
    calls: u32,
}

impl Used {
    /// How many octets of n the next call gives or takes.
    fn call(&mut self, most: usize) -> io::Result<usize>
        ensures { IfOk result (λ n. n ≤ most) }
    {
        self.calls = self.calls.saturating_add(1);
        if self.calls <= self.end.interrupted {
            return Err(Error::from(ErrorKind::Interrupted));
        }
        if self.calls == self.end.fails {
            return Err(Error::from(ErrorKind::TimedOut));
        }
        if self.calls == self.end.nothing {
            return Ok(0);
        }
        Ok(most.min(2))
    }
}

impl Read for Used {
    fn read(&mut self, buf: &mut [u8]) -> io::Result<usize> {
        self.call(buf.len())
    }
}

impl Write for Used {
    fn write(&mut self, buf: &[u8]) -> io::Result<usize> {
        self.call(buf.len())
    }

    fn flush(&mut self) -> io::Result<()> {
        self.call(0)?;
        Ok(())
    }
}

/// What four reads of at most four octets give, a digit each: how many octets, and 9 for a failed one; and the faults.
fn reads(end: End) -> (u64, u64) {
    let mut source = ReadSource::new(Used { end, calls: 0 });
    let mut told = 0u64;
    let mut buf = [0; 4];
    for _ in 0..4 {
        let digit = match source.read(&mut buf) {
            Ok(count) => count as u64,
            Err(Failed) => 9,
        };
        told = told.wrapping_mul(10).wrapping_add(digit);
    }
    (told, source.faults())
}

/// What writes of these pieces come to, a digit each: 1 for a whole one and 9 for a failed one; and the faults.
fn writes(end: End, pieces: &[&[u8]]) -> (u64, u64) {
    let mut sink = WriteSink::new(Used { end, calls: 0 });
    let mut told = 0u64;
    for piece in pieces {
        let digit = match sink.write_all(piece) {
            Ok(()) => 1,
            Err(Failed) => 9,
        };
        told = told.wrapping_mul(10).wrapping_add(digit);
    }
    (told, sink.faults())
}

/// How many calls of an end are interrupted, which one fails and which gives or takes nothing; what its reads come to, its
/// writes of `one`, `two` and `four`, and its write of no octets.
type Row = ((u32, u32, u32), (u64, u64), (u64, u64), (u64, u64));

static ROWS: [Row; 7] = [
    // one that fails in mid-stream, and later ends
    ((0, 2, 4), (2920, 1), (991, 2), (1, 0)),
    // one whose first call fails
    ((0, 1, 0), (9222, 1), (911, 1), (9, 1)),
    // one whose third fails: of the writes the flush after the first piece
    ((0, 3, 0), (2292, 1), (911, 1), (1, 0)),
    // one that has ended at first: of a piece that isn't empty, to take nothing is a fault
    ((0, 0, 1), (222, 0), (911, 1), (1, 0)),
    // interrupted calls are made again, but for a thousand in a row
    ((2, 0, 0), (2222, 0), (111, 0), (1, 0)),
    ((999, 0, 0), (2222, 0), (111, 0), (1, 0)),
    ((1000, 0, 0), (9222, 1), (911, 1), (9, 1)),
];

fn is_so(row: &Row) -> bool {
    let (interrupted, fails, nothing) = row.0;
    let end = End {
        interrupted,
        fails,
        nothing,
    };
    reads(end) == row.1
        && writes(end, &[b"one", b"two", b"four"]) == row.2
        && writes(end, &[b""]) == row.3
}

#[test]
fn ends_tell_their_failures(rt: HostRuntime) -> Result<(), Fail> {
    for row in &ROWS {
        assert!(rt; is_so(row), "{:?}", row.0);
    }
    Ok(())
}
