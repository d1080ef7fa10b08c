//! The calling side of a connection of IEC 61850-8-1: what it sends, and what it says of a server's stream, however that is
//! cut. The octets are made by hand from RFC 1006, ISO 8073, ISO 8327-1, ISO 8823-1, ISO 8650-1 and ISO 9506-2.

ghost use Rattle.std.specs.Prelude.{◌≢◌};

use crate::written::is_written;
use osi_stack::{Caller, Event, Events, Line, StackFault};
use std::alloc::{AllocError, Global};
use std::test::*;

/// The line that both sides agree on.
const LINE: Line = Line {
    context: 3,
    exponent: 13,
    size: 65000,
};

/// The call: a CR with the TPDU size 2^13 and both selectors.
static CALL: [u8; 22] =
    *b"\x03\x00\x00\x16\x11\xe0\x00\x00\x00\x01\x00\xc0\x01\x0d\xc2\x02\x00\x01\xc1\x02\x00\x01";

/// A FINISH with an RLRQ.
static FINISH: [u8; 25] =
    *b"\x03\x00\x00\x19\x02\xf0\x80\x09\x10\xc1\x0e\x61\x0c\x30\x0a\x02\x01\x01\xa0\x05\x62\x03\x80\x01\x00";

/// What a server sends: a CC, an ACCEPT, a report, a DISCONNECT with an RLRE, and octets that are no TPKT's.
static STREAM: [u8; 267] =
    *b"\x03\x00\x00\x16\x11\xd0\x00\x01\x00\x01\x00\xc0\x01\x0d\xc2\x02\x00\x01\xc1\x02\x00\x01\
\x03\x00\x00\x89\x02\xf0\x80\x0e\x80\x05\x06\x13\x01\x00\x16\x01\x02\x14\x02\x00\x02\xc1\x72\x31\x70\xa0\x03\x80\
\x01\x01\xa2\x69\xa5\x12\x30\x07\x80\x01\x00\x81\x02\x51\x01\x30\x07\x80\x01\x00\x81\x02\x51\x01\x61\x53\x30\x51\
\x02\x01\x01\xa0\x4c\x61\x4a\xa1\x07\x06\x05\x28\xca\x22\x02\x03\xa2\x03\x02\x01\x00\xa3\x05\xa1\x03\x02\x01\x00\
\xbe\x33\x28\x31\x06\x02\x51\x01\x02\x01\x03\xa0\x28\xa9\x26\x80\x03\x00\xfd\xe8\x81\x01\x05\x82\x01\x05\x83\x01\
\x0a\xa4\x16\x80\x01\x01\x81\x03\x05\xf1\x00\x82\x0c\x03\xee\x1c\x00\x00\x00\x00\x00\x00\x00\x01\x10\
\x03\x00\x00\x51\x02\xf0\x80\x01\x00\x01\x00\x61\x44\x30\x42\x02\x01\x03\xa0\x3d\xa3\x3b\xa0\x39\xa1\x05\x80\x03\
RPT\xa0\x30\x8a\x03Ev1\x84\x03\x06\x73\x80\x86\x01\x00\x8c\x06\x00\x00\x00\x0a\x00\x00\x83\x01\x00\x89\x08\x00\
\x00\x00\x00\x00\x00\x00\x01\x86\x01\x01\x84\x02\x05\x20\x85\x01\x05\x84\x02\x01\x40\
\x03\x00\x00\x19\x02\xf0\x80\x0a\x10\xc1\x0e\x61\x0c\x30\x0a\x02\x01\x01\xa0\x05\x63\x03\x80\x01\x00\
\x04\x04";

/// What is told of it: A and a CONNECT that proposes PDUs of 65000 octets, C and the line, P and the report, R.
static TOLD: &[u8] = b"A\
\x03\x00\x00\xa3\x02\xf0\x80\x0d\x9a\x05\x06\x13\x01\x00\x16\x01\x02\x14\x02\x00\x02\x33\x02\x00\x01\x34\x02\x00\
\x01\xc1\x84\x31\x81\x81\xa0\x03\x80\x01\x01\xa2\x7a\x81\x04\x00\x00\x00\x01\x82\x04\x00\x00\x00\x01\xa4\x23\x30\
\x0f\x02\x01\x01\x06\x04\x52\x01\x00\x01\x30\x04\x06\x02\x51\x01\x30\x10\x02\x01\x03\x06\x05\x28\xca\x22\x02\x01\
\x30\x04\x06\x02\x51\x01\x61\x47\x30\x45\x02\x01\x01\xa0\x40\x60\x3e\xa1\x07\x06\x05\x28\xca\x22\x02\x03\xbe\x33\
\x28\x31\x06\x02\x51\x01\x02\x01\x03\xa0\x28\xa8\x26\x80\x03\x00\xfd\xe8\x81\x01\x05\x82\x01\x05\x83\x01\x0a\xa4\
\x16\x80\x01\x01\x81\x03\x05\xf1\x00\x82\x0c\x03\xee\x1c\x00\x00\x04\x08\x00\x00\x79\xef\x18\
C\
\x00\x00\x00\x03\x0d\x00\x00\xfd\xe8\
P\
\xa3\x3b\xa0\x39\xa1\x05\x80\x03RPT\xa0\x30\x8a\x03Ev1\x84\x03\x06\x73\x80\x86\x01\x00\x8c\x06\x00\x00\x00\x0a\
\x00\x00\x83\x01\x00\x89\x08\x00\x00\x00\x00\x00\x00\x00\x01\x86\x01\x01\x84\x02\x05\x20\x85\x01\x05\x84\x02\x01\
\x40\
R";

/// The CONNECT and its letter.
const CONNECT: usize = 164;

/// Another octet in the ACCEPT, its place in the stream, and the layer and the cause of the refusal.
static REFUSALS: [(&str, usize, u8, [u8; 2]); 5] = [
    ("the context of association control refused", 60, 1, [2, 4]),
    ("the context of MMS refused", 69, 1, [2, 5]),
    ("the association refused", 98, 1, [3, 1]),
    ("an initiate request", 119, 0xa8, [4, 4]),
    ("a size of 1000", 124, 3, [4, 5]),
];

/// Adds a letter for the kind of an event, its line, and its octets.
fn put_event(out: &mut Vec<u8>, event: &Event) -> Result<(), AllocError> {
    match event {
        Event::Answer(octets) => {
            out.push(b'A')?;
            out.extend_from_slice(octets.as_slice())
        }
        Event::Connected(line, octets) => {
            out.push(b'C')?;
            out.extend_from_slice(&line.context.to_be_bytes())?;
            out.push(line.exponent)?;
            out.extend_from_slice(&line.size.to_be_bytes())?;
            out.extend_from_slice(octets.as_slice())
        }
        Event::Pdu(octets) => {
            out.push(b'P')?;
            out.extend_from_slice(octets.as_slice())
        }
        Event::Released(octets) => {
            out.push(b'R')?;
            out.extend_from_slice(octets.as_slice())
        }
        Event::Aborted => out.extend_from_slice(b"X"),
    }
}

fn put_events(out: &mut Vec<u8>, events: &Events) -> Result<(), AllocError> {
    for event in events.as_slice() {
        put_event(out, event)?;
    }
    Ok(())
}

/// Whether what is told of a stream in pieces of n octets is what is wanted.
fn is_told(alloc: Global, size: usize) -> Result<bool, AllocError>
    requires { size ≢ 0 }
{
    let mut caller = Caller::new(65000);
    let mut events = Events::from_vec(Vec::new(alloc));
    let mut refused = false;
    for piece in STREAM.chunks(size) {
        refused = refused || caller.feed(alloc, piece, &mut events).is_err();
    }
    let mut told = Vec::new(alloc);
    put_events(&mut told, &events)?;
    Ok(!refused && told.as_slice() == TOLD)
}

/// Whether the stream with another octet is refused so after the CC.
fn is_refused(alloc: Global, place: usize, octet: u8, cause: [u8; 2]) -> Result<bool, AllocError> {
    let mut stream = STREAM;
    if let Some(found) = stream.get_mut(place) {
        *found = octet;
    }
    let mut events = Events::from_vec(Vec::new(alloc));
    let answer = Caller::new(65000).feed(alloc, &stream, &mut events);
    let mut told = Vec::new(alloc);
    put_events(&mut told, &events)?;
    let [layer, code] = cause;
    let fault = StackFault::Refused {
        layer,
        code,
        octets: 22,
    };
    Ok(answer == Err(fault) && told.as_slice() == &TOLD[..CONNECT])
}

fn a_caller_writes(alloc: Global) -> bool {
    is_written(Caller::new(65000).opening(alloc), &CALL)
        && is_written(Caller::release(alloc, LINE), &FINISH)
}

#[test]
fn a_server_is_told_in_pieces_of_every_size(rt: HostRuntime) -> Result<(), AllocError> {
    for size in 1..268usize {
        assert!(rt; is_told(rt.alloc(), size)?, "pieces of {size}");
    }
    Ok(())
}

#[test]
fn a_server_is_refused(rt: HostRuntime) -> Result<(), AllocError> {
    assert!(rt; a_caller_writes(rt.alloc()), "what is sent first and last");
    for (name, place, octet, cause) in &REFUSALS {
        assert!(rt; is_refused(rt.alloc(), *place, *octet, *cause)?, "{name}");
    }
    Ok(())
}
