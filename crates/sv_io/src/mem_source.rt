//! A source in memory, whose listed reads fail.
ghost use Rattle.std.specs.Prelude.{◌≡◌, ◌≤◌, ◌↔◌, Some, min, length, Contains, IfOk, OnErr, OnOk};
ghost use Rattle.std.specs.Prelude.{IsErr};
ghost use Rattle.std.specs.Io.{ReadsAtMost};
ghost use Rattle.std.specs.Io.KnownBytes.{ReadConsumes};
ghost use Rattle.sv_io.specs.Causes.{counted, Rose, HasCause};

use crate::calls::Calls;
use crate::traits::{Failed, Source};
use std::marker::Model;
use sv_base::Octs;

/// Octets in memory. The reads whose numbers are listed fail, and give and lose nothing; every other read gives as
/// many octets as are left and have capacity.
#[derive(Debug, Drop)]
pub struct MemSource {
    octets: Octs,
    at: usize,
    fails: Calls,
    calls: u64,
    faults: u64,
}

impl Model for MemSource {
    ghost use Rattle.std.specs.Prelude.{◌≤◌, drop, length};
    ghost use Rattle.sv_io.specs.Memory.{Reading};

    ghost Value = { Reading };

    ghost view = { λ s. record {
      left = drop s.at s.octets;
      fails = s.fails;
      calls = s.calls;
      faults = s.faults;
    } };

    ghost invariant = { λ s. s.at ≤ length s.octets };
}

impl MemSource {
    /// A source of these octets, of which no read was made yet.
    pub fn new(bytes: Octs, fails: Calls) -> Self
        ensures { result ≡ record { left = bytes; fails = fails; calls = 0; faults = 0 } }
    {
        MemSource {
            octets: bytes,
            at: 0,
            fails,
            calls: 0,
            faults: 0,
        }
    }

    /// How many reads there were.
    pub fn calls(&self) -> u64
        ensures { result ≡ self.now.calls }
    {
        self.calls
    }

    /// How many of them failed.
    pub fn faults(&self) -> u64
        ensures { result ≡ self.now.faults }
    {
        self.faults
    }

    /// Other octets are left, in place of those that are.
    pub(crate) fn refill(&mut self, bytes: Octs)
        ensures { self.new ≡ record self.old { left = bytes } }
    {
        self.octets = bytes;
        self.at = 0;
    }

    /// A read fails.
    pub(crate) fn fail(&mut self)
        ensures counts { self.new ≡ record self.old {
          calls = counted self.old.calls;
          faults = counted self.old.faults;
        } }
        ensures later { self.old.faults ≤ self.new.faults }
        ensures rose { Rose self.old.faults self.new.faults }
    {
        self.calls = self.calls.saturating_add(1);
        self.faults = self.faults.saturating_add(1);
    }
}

impl Source for MemSource {
    ghost left = { λ s. Some s.left };

    ghost faults = { λ s. s.faults };

    fn read(&mut self, buf: &mut [u8]) -> Result<usize, Failed>
        ensures bound { ReadsAtMost result buf.new }
        ensures bytes { ReadConsumes (Some self.old.left) (Some self.new.left) result buf.new }
        ensures cause { HasCause self.old.faults self.new.faults result }
        ensures listed { IsErr result ↔ Contains self.old.fails (counted self.old.calls) }
        ensures count { IfOk result (λ n. n ≡ min (length self.old.left) (length buf.old)) }
        ensures calls { self.new.calls ≡ counted self.old.calls }
        ensures fails { self.new.fails ≡ self.old.fails }
        ensures fault { OnErr result (self.new.faults ≡ counted self.old.faults) }
        ensures no_fault { OnOk result (self.new.faults ≡ self.old.faults) }
    {
        self.calls = self.calls.saturating_add(1);
        if self.fails.contains(self.calls) {
            self.faults = self.faults.saturating_add(1);
            return Err(Failed);
        }
        let rest = &self.octets.as_slice()[self.at..];
        let count = rest.len().min(buf.len());
        buf[..count].copy_from_slice(&rest[..count]);
        self.at += count;
        Ok(count)
    }
}
