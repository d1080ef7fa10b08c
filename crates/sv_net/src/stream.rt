//! The two ends of a connection of TCP, over one socket.

use crate::options::watch_peer;
use std::alloc::{AllocError, Global};
use std::io::{self, Read, Write};
use std::net::{Shutdown, TcpStream};
use std::sync::Arc;
use sv_io::{Failed, ReadSource, Sink, WriteSink};

/// A connection that two ends share. It is closed once both are dropped.
#[derive(Drop)]
pub struct SharedStream {
    stream: Arc<TcpStream, Global>,
}

/// What a connection is read from.
pub type TcpIn = ReadSource<SharedStream>;

impl Read for SharedStream {
    fn read(&mut self, buf: &mut [u8]) -> io::Result<usize> {
        (&*self.stream).read(buf)
    }
}

impl Write for SharedStream {
    fn write(&mut self, buf: &[u8]) -> io::Result<usize> {
        (&*self.stream).write(buf)
    }

    fn flush(&mut self) -> io::Result<()> {
        Ok(())
    }
}

/// What a connection is written to. A write that fails ends the connection both ways, so that whoever reads from it is not left waiting.
#[derive(Drop)]
pub struct TcpOut {
    sink: WriteSink<SharedStream>,
    stream: SharedStream,
}

impl Sink for TcpOut {
    ghost use Rattle.std.specs.Prelude.{None};

    ghost taken = { λ _. None };

    ghost faults = { λ s. s.sink.faults };

    fn write_all(&mut self, piece: &[u8]) -> Result<(), Failed> {
        match self.sink.write_all(piece) {
            Ok(()) => Ok(()),
            Err(Failed) => {
                let _ = self.stream.stream.shutdown(Shutdown::Both);
                Err(Failed)
            }
        }
    }
}

/// The ends of a connection, whose small pieces are sent at once and whose peer is watched.
pub(crate) fn ends_of(alloc: Global, stream: TcpStream) -> Result<(TcpIn, TcpOut), AllocError> {
    let _ = stream.set_nodelay(true);
    watch_peer(&stream);
    let stream = Arc::new(alloc, stream)?;
    let read = Arc::try_clone(&stream)?;
    let write = Arc::try_clone(&stream)?;
    let sink = WriteSink::new(SharedStream { stream: write });
    let source = ReadSource::new(SharedStream { stream: read });
    Ok((
        source,
        TcpOut {
            sink,
            stream: SharedStream { stream },
        },
    ))
}
