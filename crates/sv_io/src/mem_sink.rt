//! A sink in memory, whose listed writes fail.
ghost use Rattle.std.specs.Prelude.{◌≡◌, ◌≤◌, ◌⊎◌, Some, [], Contains, OnErr, OnOk, IsErr};
ghost use Rattle.std.specs.Io.KnownBytes.{Appends};
ghost use Rattle.sv_io.specs.Causes.{counted, Rose, HasCause, GrowsByFront};

use crate::calls::Calls;
use crate::traits::{Failed, Sink};
use std::alloc::Global;
use std::marker::Model;

/// What was written, in memory. The writes whose numbers are listed fail, and so does one that finds no memory; a
/// write that fails takes nothing.
#[derive(Debug, Drop)]
pub struct MemSink {
    octets: Vec<u8>,
    fails: Calls,
    calls: u64,
    faults: u64,
    wants: u64,
}

impl Model for MemSink {
    ghost use Rattle.sv_io.specs.Memory.{Writing};

    ghost Value = { Writing };

    ghost view = { λ s. record {
      taken = s.octets.items;
      fails = s.fails;
      calls = s.calls;
      faults = s.faults;
      wants = s.wants;
    } };
}

impl MemSink {
    /// A sink that has taken nothing yet.
    pub fn new(alloc: Global, fails: Calls) -> Self
        ensures { result ≡ record { taken = []; fails = fails; calls = 0; faults = 0; wants = 0 } }
    {
        MemSink {
            octets: Vec::new(alloc),
            fails,
            calls: 0,
            faults: 0,
            wants: 0,
        }
    }

    /// What was taken.
    pub fn octets(&self) -> &[u8]
        ensures { result.now ≡ self.now.taken }
    {
        &self.octets
    }

    /// How many writes there were.
    pub fn calls(&self) -> u64
        ensures { result ≡ self.now.calls }
    {
        self.calls
    }

    /// How many of them failed.
    pub fn faults(&self) -> u64
        ensures { result ≡ self.now.faults }
    {
        self.faults
    }

    /// How many of them found no memory.
    pub fn wants(&self) -> u64
        ensures { result ≡ self.now.wants }
    {
        self.wants
    }

    /// A write fails.
    pub(crate) fn fail(&mut self)
        ensures counts { self.new ≡ record self.old {
          calls = counted self.old.calls;
          faults = counted self.old.faults;
        } }
        ensures later { self.old.faults ≤ self.new.faults }
        ensures rose { Rose self.old.faults self.new.faults }
    {
        self.calls = self.calls.saturating_add(1);
        self.faults = self.faults.saturating_add(1);
    }
}

impl Sink for MemSink {
    ghost taken = { λ s. Some s.taken };

    ghost faults = { λ s. s.faults };

    fn write_all(&mut self, piece: &[u8]) -> Result<(), Failed>
        ensures ok { OnOk result (Appends (Some self.old.taken) (Some self.new.taken) piece.now) }
        ensures err { OnErr result (GrowsByFront (Some self.old.taken)
            (Some self.new.taken) piece.now) }
        ensures cause { HasCause self.old.faults self.new.faults result }
        ensures listed { Contains self.old.fails (counted self.old.calls)
            → IsErr result × (self.new.wants ≡ self.old.wants) }
        ensures unlisted { OnErr result (Contains self.old.fails (counted self.old.calls)
            ⊎ Rose self.old.wants self.new.wants) }
        ensures none_taken { OnErr result (self.new.taken ≡ self.old.taken) }
        ensures calls { self.new.calls ≡ counted self.old.calls }
        ensures fails { self.new.fails ≡ self.old.fails }
        ensures fault { OnErr result (self.new.faults ≡ counted self.old.faults) }
        ensures no_fault { OnOk result ((self.new.faults ≡ self.old.faults)
            × (self.new.wants ≡ self.old.wants)) }
    {
        self.calls = self.calls.saturating_add(1);
        if self.fails.contains(self.calls) {
            self.faults = self.faults.saturating_add(1);
            return Err(Failed);
        }
        match self.octets.extend_from_slice(piece) {
            Ok(()) => Ok(()),
            Err(_) => {
                self.faults = self.faults.saturating_add(1);
                self.wants = self.wants.saturating_add(1);
                Err(Failed)
            }
        }
    }
}
