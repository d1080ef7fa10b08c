//! Why a client goes on no more: servers that break off at every octet, reads and writes that fail in turn, and replies that
//! don't fit.

use crate::asking::{Stop, ask, joined, link_to, resume};
use crate::octets::{
    ABORT, CALLED, CONCLUDED, EARLY, ERROR, OTHER_NUMBER, READ, READ_ANSWER, REFUSED, REJECT,
    TWO_RESULTS, UNKNOWN,
};
use mms_client::{Client, ClientFault};
use std::alloc::{AllocError, Global};
use std::sync::Wait;
use std::test::*;

/// What all of the server's octets are.
fn whole(alloc: Global) -> Result<Vec<u8>, AllocError> {
    joined(alloc, &[CALLED, EARLY, READ, CONCLUDED])
}

/// The fault of an account of these octets, where a read and a write with these numbers fail.
fn fault_of<R: Wait>(
    rt: &R,
    alloc: Global,
    octets: Vec<u8>,
    reads: Option<u32>,
    writes: Option<u32>,
) -> Result<Option<ClientFault>, AllocError> {
    let mut link = link_to(alloc, octets, reads, writes)?;
    match ask(rt, alloc, &mut link) {
        Err(Stop::Fault(fault)) => Ok(Some(fault)),
        _ => Ok(None),
    }
}

#[test]
fn a_server_breaks_off_at_every_octet(rt: HostRuntime) -> Result<(), AllocError> {
    let alloc = rt.alloc();
    let octets = whole(alloc)?;
    for count in 0..octets.len() {
        let front = Vec::from_slice(alloc, &octets[..count])?;
        let fault = fault_of(&rt, alloc, front, None, None)?;
        assert!(rt; fault == Some(ClientFault::Ended), "{count} octets");
    }
    Ok(())
}

#[test]
fn each_read_and_write_fails_in_turn(rt: HostRuntime) -> Result<(), AllocError> {
    let alloc = rt.alloc();
    let fault = fault_of(&rt, alloc, whole(alloc)?, Some(1), None)?;
    assert!(rt; fault == Some(ClientFault::ReadFault), "the read");
    // The CR, the CN, four requests, the conclude and the FN.
    for number in 1..9u32 {
        let fault = fault_of(&rt, alloc, whole(alloc)?, None, Some(number))?;
        assert!(rt; fault == Some(ClientFault::WriteFault), "write {number}");
    }
    Ok(())
}

/// What comes in place of the answer to the first write, and the fault.
static REPLIES: [(&[u8], ClientFault); 7] = [
    (OTHER_NUMBER, ClientFault::Peer { layer: 5, code: 6 }),
    (READ_ANSWER, ClientFault::Peer { layer: 5, code: 6 }),
    (TWO_RESULTS, ClientFault::Peer { layer: 5, code: 6 }),
    (UNKNOWN, ClientFault::Peer { layer: 5, code: 1 }),
    (ERROR, ClientFault::Service { class: 4, code: 3 }),
    (
        REJECT,
        ClientFault::Service {
            class: 255,
            code: 0,
        },
    ),
    (ABORT, ClientFault::Ended),
];

/// The fault of the first write is that one, the next call answers it again, and writes nothing.
fn is_answered_again<R: Wait>(
    rt: &R,
    alloc: Global,
    reply: &[u8],
    fault: ClientFault,
) -> Result<bool, AllocError> {
    let mut link = link_to(alloc, joined(alloc, &[CALLED, reply, EARLY])?, None, None)?;
    let Ok(mut client) = Client::connect(rt, alloc, &mut link) else {
        return Ok(false);
    };
    let first = resume(rt, alloc, &mut client, &mut link);
    let sent = link.sink.octets().len();
    let again = client.next_report(rt, alloc, &mut link);
    let last = client.conclude(rt, alloc, &mut link);
    Ok(
        matches!(first, Err(Stop::Fault(f)) if f == fault)
            && matches!(again, Err(f) if f == fault)
            && matches!(last, Err(f) if f == fault)
            && link.sink.octets().len() == sent,
    )
}

#[test]
fn a_reply_that_does_not_fit_ends_the_client(rt: HostRuntime) -> Result<(), AllocError> {
    for (reply, fault) in &REPLIES {
        let is_so = is_answered_again(&rt, rt.alloc(), reply, *fault)?;
        assert!(rt; is_so, "{fault:?}");
    }
    Ok(())
}

#[test]
fn a_refused_entry_is_told(rt: HostRuntime) -> Result<(), AllocError> {
    let alloc = rt.alloc();
    let mut link = link_to(alloc, joined(alloc, &[CALLED, REFUSED])?, None, None)?;
    if let Ok(mut client) = Client::connect(&rt, alloc, &mut link) {
        let refused = resume(&rt, alloc, &mut client, &mut link);
        assert!(rt; matches!(refused, Err(Stop::Refused(11))), "the code");
    } else {
        assert!(rt; false, "the association");
    }
    Ok(())
}
