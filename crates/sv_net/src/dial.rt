//! A connection of TCP that is dialled.

ghost use Rattle.std.specs.Prelude.{◌≡◌, ◌<◌, length};
ghost use Rattle.std.specs.Io.{ReadsAtMost};

use crate::stream::{TcpIn, TcpOut, ends_of};
use std::alloc::Global;
use std::net::{Net, TcpStream};
use sv_io::{Dial, Failed, Link, Sink, Source};

/// A connection of TCP that is dialled: the one that was made last.
#[derive(Drop)]
pub struct TcpDial<'a, R> {
    rt: &'a R,
    alloc: Global,
    ends: Option<(TcpIn, TcpOut)>,
    reads: u64,
    writes: u64,
    dials: u64,
}

impl<'a, R> TcpDial<'a, R> {
    /// Nothing was dialled yet.
    pub fn new(rt: &'a R, alloc: Global) -> Self {
        TcpDial {
            rt,
            alloc,
            ends: None,
            reads: 0,
            writes: 0,
            dials: 0,
        }
    }

    fn read_open(&mut self, buf: &mut [u8]) -> Result<usize, Failed>
        requires { 0 < length buf.old }
        ensures bound { ReadsAtMost result buf.new }
        ensures kept { (self.new.reads ≡ self.old.reads) × (self.new.writes ≡ self.old.writes)
            × (self.new.dials ≡ self.old.dials) }
    {
        match &mut self.ends {
            Some((source, _)) => source.read(buf),
            None => Err(Failed),
        }
    }

    fn write_open(&mut self, piece: &[u8]) -> Result<(), Failed>
        ensures kept { (self.new.reads ≡ self.old.reads) × (self.new.writes ≡ self.old.writes)
            × (self.new.dials ≡ self.old.dials) }
    {
        match &mut self.ends {
            Some((_, sink)) => sink.write_all(piece),
            None => Err(Failed),
        }
    }
}

impl<'a, R: Net<Stream = TcpStream>> TcpDial<'a, R> {
    fn open(&mut self, address: &str) -> Result<(), Failed>
        ensures kept { (self.new.reads ≡ self.old.reads) × (self.new.writes ≡ self.old.writes)
            × (self.new.dials ≡ self.old.dials) }
    {
        self.ends = None;
        let Ok(stream) = TcpStream::connect(self.rt, address) else {
            return Err(Failed);
        };
        match ends_of(self.alloc, stream) {
            Ok(ends) => {
                self.ends = Some(ends);
                Ok(())
            }
            Err(_) => Err(Failed),
        }
    }
}

impl<'a, R> Source for TcpDial<'a, R> {
    ghost use Rattle.std.specs.Prelude.{None};

    ghost left = { λ _. None };

    ghost faults = { λ d. d.reads };

    ghost beside = { λ d. record { octets = None; faults = d.writes } };

    fn read(&mut self, buf: &mut [u8]) -> Result<usize, Failed> {
        match self.read_open(buf) {
            Ok(count) => Ok(count),
            Err(Failed) => {
                self.reads = self.reads.saturating_add(1);
                Err(Failed)
            }
        }
    }
}

impl<'a, R> Sink for TcpDial<'a, R> {
    ghost use Rattle.std.specs.Prelude.{None};

    ghost taken = { λ _. None };

    ghost faults = { λ d. d.writes };

    ghost beside = { λ d. record { octets = None; faults = d.reads } };

    fn write_all(&mut self, piece: &[u8]) -> Result<(), Failed> {
        match self.write_open(piece) {
            Ok(()) => Ok(()),
            Err(Failed) => {
                self.writes = self.writes.saturating_add(1);
                Err(Failed)
            }
        }
    }
}

impl<'a, R> Link for TcpDial<'a, R> {
    ghost use Rattle.std.specs.Prelude.{refl};

    ghost reads_leave_writes = { λ _. refl };

    ghost writes_leave_reads = { λ _. refl };
}

impl<'a, R: Net<Stream = TcpStream>> Dial for TcpDial<'a, R> {
    ghost use Rattle.std.specs.Prelude.{None};

    ghost comes = { λ _. None };

    ghost dials = { λ d. d.dials };

    fn dial(&mut self, address: &str) -> Result<(), Failed> {
        match self.open(address) {
            Ok(()) => Ok(()),
            Err(Failed) => {
                self.dials = self.dials.saturating_add(1);
                Err(Failed)
            }
        }
    }
}
