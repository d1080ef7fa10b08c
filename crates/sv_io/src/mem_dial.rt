//! A dialled link in memory, whose listed calls fail.
ghost use Rattle.std.specs.Prelude.{◌≡◌, ◌↔◌, ◌⊎◌, Some, [], ◌∷◌, true, false, min, length};
ghost use Rattle.std.specs.Prelude.{slice_get, Contains, IfOk, OnErr, OnOk, IsErr};
ghost use Rattle.std.specs.Io.{ReadsAtMost};
ghost use Rattle.std.specs.Io.KnownBytes.{ReadConsumes, Appends};
ghost use Rattle.sv_io.specs.Causes.{counted, Rose, HasCause, GrowsByFront};
ghost use Rattle.sv_io.specs.Connections.{IsReached};

use crate::calls::Calls;
use crate::dial::Dial;
use crate::link::Link;
use crate::mem_sink::MemSink;
use crate::mem_source::MemSource;
use crate::traits::{Failed, Sink, Source};
use std::alloc::Global;
use std::marker::Model;
use sv_base::{List, Octs};

/// Connections in memory, one for each dial that succeeds, in the order of their streams; what is written is kept in a
/// row. The dials, reads and writes whose numbers are listed fail, and so do a dial past the last stream, and a read or
/// a write before the first connection.
#[derive(Drop)]
pub struct MemDial {
    streams: Vec<Octs>,
    dials: Calls,
    calls: u64,
    failed: u64,
    reached: bool,
    source: MemSource,
    sink: MemSink,
}

impl Model for MemDial {
    ghost use Rattle.std.specs.Prelude.{reverse};
    ghost use Rattle.sv_io.specs.Memory.{Dialling};

    ghost Value = { Dialling };

    ghost view = { λ d. record {
      streams = reverse d.streams.items;
      dials = d.dials;
      calls = d.calls;
      faults = d.failed;
      reached = d.reached;
      reading = d.source;
      writing = d.sink;
    } };
}

impl MemDial {
    /// A link to these streams, of which none is reached yet.
    pub fn new(
        alloc: Global,
        streams: List<Octs>,
        dials: Calls,
        reads: Calls,
        writes: Calls,
    ) -> Self
        ensures streams { (result.streams ≡ streams) × (result.reached ≡ false) }
        ensures dials { (result.dials ≡ dials) × (result.calls ≡ 0) × (result.faults ≡ 0) }
        ensures reads { result.reading ≡ record {
          left = [];
          fails = reads;
          calls = 0;
          faults = 0;
        } }
        ensures writes { result.writing ≡ record {
          taken = [];
          fails = writes;
          calls = 0;
          faults = 0;
          wants = 0;
        } }
    {
        let mut streams = streams.into_vec();
        streams.reverse();
        MemDial {
            streams,
            dials,
            calls: 0,
            failed: 0,
            reached: false,
            source: MemSource::new(Octs::from_vec(Vec::new(alloc)), reads),
            sink: MemSink::new(alloc, writes),
        }
    }

    /// What was taken, on all connections.
    pub fn octets(&self) -> &[u8]
        ensures { result.now ≡ self.now.writing.taken }
    {
        self.sink.octets()
    }

    /// How many dials failed.
    pub fn failed(&self) -> u64
        ensures { result ≡ self.now.faults }
    {
        self.failed
    }
}

impl Source for MemDial {
    ghost left = { λ d. Some d.reading.left };

    ghost faults = { λ d. d.reading.faults };

    ghost beside = { λ d. record { octets = Some d.writing.taken; faults = d.writing.faults } };

    fn read(&mut self, buf: &mut [u8]) -> Result<usize, Failed>
        ensures bound { ReadsAtMost result buf.new }
        ensures bytes { ReadConsumes (Some self.old.reading.left)
            (Some self.new.reading.left) result buf.new }
        ensures cause { HasCause self.old.reading.faults self.new.reading.faults result }
        ensures listed { IsErr result ↔ ((self.old.reached ≡ false)
            ⊎ Contains self.old.reading.fails (counted self.old.reading.calls)) }
        ensures count { IfOk result (λ n. n ≡ min (length self.old.reading.left) (length buf.old)) }
        ensures calls { self.new.reading.calls ≡ counted self.old.reading.calls }
        ensures fault { OnErr result (self.new.reading.faults ≡ counted self.old.reading.faults) }
        ensures no_fault { OnOk result (self.new.reading.faults ≡ self.old.reading.faults) }
        ensures fails { self.new.reading.fails ≡ self.old.reading.fails }
        ensures rest { self.new ≡ record self.old { reading = self.new.reading } }
    {
        if !self.reached {
            self.source.fail();
            return Err(Failed);
        }
        self.source.read(buf)
    }
}

impl Sink for MemDial {
    ghost taken = { λ d. Some d.writing.taken };

    ghost faults = { λ d. d.writing.faults };

    ghost beside = { λ d. record { octets = Some d.reading.left; faults = d.reading.faults } };

    fn write_all(&mut self, piece: &[u8]) -> Result<(), Failed>
        ensures ok { OnOk result (Appends (Some self.old.writing.taken)
            (Some self.new.writing.taken) piece.now) }
        ensures err { OnErr result (GrowsByFront (Some self.old.writing.taken)
            (Some self.new.writing.taken) piece.now) }
        ensures cause { HasCause self.old.writing.faults self.new.writing.faults result }
        ensures unreached { self.old.reached ≡ false → IsErr result }
        ensures listed { Contains self.old.writing.fails (counted self.old.writing.calls)
            → IsErr result }
        ensures unlisted { OnErr result (self.old.reached ≡ true
            → Contains self.old.writing.fails (counted self.old.writing.calls)
            ⊎ Rose self.old.writing.wants self.new.writing.wants) }
        ensures none_taken { OnErr result (self.new.writing.taken ≡ self.old.writing.taken) }
        ensures calls { self.new.writing.calls ≡ counted self.old.writing.calls }
        ensures fails { self.new.writing.fails ≡ self.old.writing.fails }
        ensures rest { self.new ≡ record self.old { writing = self.new.writing } }
    {
        if !self.reached {
            self.sink.fail();
            return Err(Failed);
        }
        self.sink.write_all(piece)
    }
}

impl Link for MemDial {
    ghost use Rattle.std.specs.Prelude.{refl};

    ghost reads_leave_writes = { λ _. refl };

    ghost writes_leave_reads = { λ _. refl };
}

impl Dial for MemDial {
    ghost comes = { λ d. slice_get d.streams 0 };

    ghost dials = { λ d. d.faults };

    fn dial(&mut self, _address: &str) -> Result<(), Failed>
        ensures reached { OnOk result (IsReached (slice_get self.old.streams 0)
            (Some self.new.reading.left)) }
        ensures cause { HasCause self.old.faults self.new.faults result }
        ensures taken { self.new.writing ≡ self.old.writing }
        ensures reads { self.new.reading.faults ≡ self.old.reading.faults }
        ensures listed { IsErr result ↔ ((self.old.streams ≡ [])
            ⊎ Contains self.old.dials (counted self.old.calls)) }
        ensures next { OnOk result (self.old.streams ≡ self.new.reading.left ∷ self.new.streams) }
        ensures calls { (self.new.calls ≡ counted self.old.calls)
            × (self.new.dials ≡ self.old.dials) }
        ensures fault { OnErr result (self.new ≡ record self.old {
          calls = counted self.old.calls;
          faults = counted self.old.faults;
        }) }
        ensures no_fault { OnOk result ((self.new.faults ≡ self.old.faults)
            × (self.new.reached ≡ true)) }
        ensures fails { (self.new.reading.fails ≡ self.old.reading.fails)
            × (self.new.reading.calls ≡ self.old.reading.calls) }
    {
        self.calls = self.calls.saturating_add(1);
        if self.dials.contains(self.calls) {
            self.failed = self.failed.saturating_add(1);
            return Err(Failed);
        }
        match self.streams.pop() {
            Some(stream) => {
                self.source.refill(stream);
                self.reached = true;
                Ok(())
            }
            None => {
                self.failed = self.failed.saturating_add(1);
                Err(Failed)
            }
        }
    }
}
