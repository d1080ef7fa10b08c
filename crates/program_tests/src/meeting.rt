//! Gates by which two actors meet between their turns.

use record_outcome::status::Status;
use server_run::rehearse_gated;
use std::alloc::{AllocError, Global};
use std::sync::Wait;
use std::sync::atomic::{AtomicU64, Ordering};
use std::test::*;
use std::thread::{self, Threads};
use std::time::Duration;
use sv_base::Octs;
use sv_io::{Calls, Gate, MemSink, MemSource};

/// How often a gate rests at most, a millisecond each time.
const RESTS: u32 = 10000;

/// A gate that holds its actor's second turn until the other actor has made its first.
#[derive(Drop)]
struct Meeting<'a> {
    clock: &'a HostRuntime,
    own: &'a AtomicU64,
    other: &'a AtomicU64,
    /// It gave up.
    late: &'a AtomicU64,
}

impl<'a> Gate for Meeting<'a> {
    fn pass(&mut self, count: u64) {
        self.own.store(count, Ordering::SeqCst);
        if count != 1 {
            return;
        }
        for _ in 0..RESTS {
            if self.other.load(Ordering::SeqCst) >= 1 {
                return;
            }
            thread::sleep(self.clock, Duration::from_millis(1));
        }
        self.late.store(1, Ordering::SeqCst);
    }
}

/// The gates of 16 scripts: the first two meet, and no other script is there.
fn gates<'a>(
    clock: &'a HostRuntime,
    one: &'a AtomicU64,
    two: &'a AtomicU64,
    late: &'a AtomicU64,
) -> Result<Vec<Meeting<'a>>, AllocError> {
    let mut gates = Vec::new(clock.alloc());
    for place in 0u32..16 {
        let (own, other) = if place == 1 { (two, one) } else { (one, two) };
        gates.push(Meeting {
            clock,
            own,
            other,
            late,
        })?;
    }
    Ok(gates)
}

/// The process and an association, each of at least two turns.
const SCRIPTS: &str = "rehearse 1\nconfig 1\nserver a b c\nld A\nln L\nattr ST x int8 - 0\nend\n\
    script process\nset A/L$ST$x 1\nset A/L$ST$x 2\nset A/L$ST$x 3\nclose\n\
    script association 1\nopen 1 direct\ntake 1\ntake 1\nclose\nend\n";

/// All turns of the scripts go under these gates.
fn all_go<R: Threads + Wait + Sync, G: Gate>(
    rt: &R,
    alloc: Global,
    gates: Vec<G>,
) -> Result<bool, AllocError> {
    let octets = Octs::from_vec(Vec::from_slice(alloc, SCRIPTS.as_bytes())?);
    let mut input = MemSource::new(octets, Calls::from_vec(Vec::new(alloc)));
    let mut output = MemSink::new(alloc, Calls::from_vec(Vec::new(alloc)));
    if gates.len() != 16 {
        return Ok(false);
    }
    Ok(rehearse_gated(rt, alloc, gates, &mut input, &mut output) == Status::Ok)
}

#[test]
fn actors_at_once(rt: HostRuntime) -> Result<(), Fail> {
    let one = AtomicU64::new(0);
    let two = AtomicU64::new(0);
    let late = AtomicU64::new(0);
    let met = all_go(&rt, rt.alloc(), gates(&rt, &one, &two, &late)?)?;
    assert!(rt; met && late.load(Ordering::SeqCst) == 0);
    Ok(())
}
