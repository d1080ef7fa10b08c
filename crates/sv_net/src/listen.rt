//! A listening socket of TCP.

ghost use Rattle.std.specs.Prelude.{◌≡◌};

use crate::stream::{TcpIn, TcpOut, ends_of};
use std::alloc::{AllocError, Global};
use std::io::{Error, ErrorKind};
use std::net::{Net, TcpListener, TcpStream};
use std::sync::Wait;
use std::thread;
use std::time::{self, Duration};
use sv_io::{Failed, Listener, Named};

/// How long to wait for a descriptor that another connection gives back, in milliseconds.
const PAUSE: u64 = 100;

/// What a failed accept says of the listening socket.
enum Refused {
    /// Nothing: the next one may go well.
    Again,
    /// A descriptor or memory is lacking, which an ended connection gives back.
    Later,
    /// It accepts nothing any more.
    Ended,
}

/// The errors of a system that wants descriptors or buffers (POSIX.1, EMFILE, ENFILE and ENOBUFS, as Linux numbers them).
const WANTING: [i32; 3] = [24, 23, 105];

/// Descriptors, buffers or memory are lacking.
fn is_wanting(error: &Error) -> bool {
    match error.raw_os_error() {
        Some(code) => WANTING.contains(&code),
        None => error.kind() == ErrorKind::OutOfMemory,
    }
}

/// What an error says (POSIX.1, accept).
fn refusal_of(error: &Error) -> Refused {
    let kind = error.kind();
    if kind == ErrorKind::Interrupted || kind == ErrorKind::ConnectionAborted {
        Refused::Again
    } else if is_wanting(error) {
        Refused::Later
    } else {
        Refused::Ended
    }
}

/// A listening socket of TCP, which is bound at the first accept. An accept that a signal interrupted, or of a connection that its peer
/// gave up, is made again, and after a pause one for which descriptors are lacking.
#[derive(Drop)]
pub struct TcpListen<'a, R: Net> {
    rt: &'a R,
    alloc: Global,
    address: String,
    listener: Option<R::Listener>,
    accepted: u64,
    faults: u64,
}

impl<'a, R: Net<Stream = TcpStream, Listener = TcpListener> + Wait + time::Clock> TcpListen<'a, R> {
    /// A listener that has no address yet.
    pub fn new(rt: &'a R, alloc: Global) -> Self {
        TcpListen {
            rt,
            alloc,
            address: String::new(alloc),
            listener: None,
            accepted: 0,
            faults: 0,
        }
    }

    /// Binds the socket where it isn't bound yet.
    fn bind(&mut self) -> Result<(), Failed>
        ensures kept { (self.new.faults ≡ self.old.faults)
            × (self.new.accepted ≡ self.old.accepted) }
    {
        if self.listener.is_some() {
            return Ok(());
        }
        match TcpListener::bind(self.rt, self.address.as_str()) {
            Ok(listener) => {
                self.listener = Some(listener);
                Ok(())
            }
            Err(_) => Err(Failed),
        }
    }

    /// Waits for the next connection.
    fn wait(&self) -> Result<TcpStream, Failed> {
        let Some(listener) = &self.listener else {
            return Err(Failed);
        };
        for _ in self.rt.forever() {
            match listener.accept() {
                Ok((stream, _)) => return Ok(stream),
                Err(error) => match refusal_of(&error) {
                    Refused::Again => {}
                    Refused::Later => thread::sleep(self.rt, Duration::from_millis(PAUSE)),
                    Refused::Ended => return Err(Failed),
                },
            }
        }
        Err(Failed)
    }

    /// The ends of the next connection.
    fn next(&mut self) -> Result<(TcpIn, TcpOut), Failed>
        ensures kept { (self.new.faults ≡ self.old.faults)
            × (self.new.accepted ≡ self.old.accepted) }
    {
        self.bind()?;
        let stream = self.wait()?;
        match ends_of(self.alloc, stream) {
            Ok(ends) => Ok(ends),
            Err(AllocError) => Err(Failed),
        }
    }
}

impl<'a, R: Net> Named for TcpListen<'a, R> {
    fn name(&mut self, text: &str) -> Result<(), AllocError> {
        self.address = String::from_str(self.alloc, text)?;
        Ok(())
    }
}

impl<'a, R: Net<Stream = TcpStream, Listener = TcpListener> + Wait + time::Clock> Listener
    for TcpListen<'a, R> {
    type In = TcpIn;

    type Out = TcpOut;

    ghost accepted = { λ l. l.accepted };

    ghost faults = { λ l. l.faults };

    fn accept(&mut self) -> Result<(TcpIn, TcpOut), Failed> {
        if self.accepted < u64::MAX {
            if let Ok(ends) = self.next() {
                self.accepted += 1;
                return Ok(ends);
            }
        }
        self.faults = self.faults.saturating_add(1);
        Err(Failed)
    }
}
