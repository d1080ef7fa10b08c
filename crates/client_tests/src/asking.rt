//! A client that goes on after an entry, takes a report, reads two variables and concludes.

use crate::octets::{CALLED, CONCLUDED, EARLY, READ, REPORT, RESUMED, SENT};
use mms_client::{Client, ClientFault, is_block, is_reference};
use std::alloc::{AllocError, Global};
use std::sync::Wait;
use std::test::*;
use sv_base::{AccessResult, Octs, Value};
use sv_io::{Calls, Duplex, Link, MemSink, MemSource};

/// A block, a variable, and the reference of none.
const BLOCK: &str = "BAY1/LLN0$BR$brcbEv01";

const FIRST: &str = "BAY1/MMXU1$MX$TotW$mag$i";

const SECOND: &str = "BAY1/NO$SUCH";

/// What came of it: the EntryID of the report, and what the variables are.
#[derive(Drop)]
pub struct Account {
    id: u64,
    first: AccessResult,
    second: AccessResult,
}

/// A link to a server that sends these octets. The calls with these numbers fail.
pub fn link_to(
    alloc: Global,
    octets: Vec<u8>,
    reads: Option<u32>,
    writes: Option<u32>,
) -> Result<Duplex<MemSource, MemSink>, AllocError> {
    let source = MemSource::new(Octs::from_vec(octets), calls(alloc, reads)?);
    let sink = MemSink::new(alloc, calls(alloc, writes)?);
    Ok(Duplex { source, sink })
}

fn calls(alloc: Global, number: Option<u32>) -> Result<Calls, AllocError> {
    let mut numbers = Vec::new(alloc);
    if let Some(number) = number {
        numbers.push(number)?;
    }
    Ok(Calls::from_vec(numbers))
}

/// The octets of these, one after another.
pub fn joined(alloc: Global, parts: &[&[u8]]) -> Result<Vec<u8>, AllocError> {
    let mut all = Vec::new(alloc);
    for part in parts {
        all.extend_from_slice(part)?;
    }
    Ok(all)
}

/// Why a client gave no account: a fault, or a write that was refused.
#[derive(Debug, Drop)]
pub enum Stop {
    Fault(ClientFault),
    Refused(u8),
    Name,
}

impl From<ClientFault> for Stop {
    fn from(fault: ClientFault) -> Stop {
        Stop::Fault(fault)
    }
}

/// Goes on after the entry 0.
pub fn resume<R: Wait, L: Link>(
    rt: &R,
    alloc: Global,
    client: &mut Client,
    link: &mut L,
) -> Result<(), Stop> {
    if !is_block(BLOCK) {
        return Err(Stop::Name);
    }
    match client.resume(rt, alloc, link, BLOCK, [0; 8])? {
        Ok(()) => Ok(()),
        Err(code) => Err(Stop::Refused(code)),
    }
}

/// Reads a variable.
pub fn read<R: Wait, L: Link>(
    rt: &R,
    alloc: Global,
    client: &mut Client,
    link: &mut L,
    reference: &str,
) -> Result<AccessResult, Stop> {
    if !is_reference(reference) {
        return Err(Stop::Name);
    }
    let result = client.read(rt, alloc, link, reference)?;
    Ok(result)
}

/// All of it.
pub fn ask<R: Wait, L: Link>(rt: &R, alloc: Global, link: &mut L) -> Result<Account, Stop> {
    let mut client = Client::connect(rt, alloc, link)?;
    resume(rt, alloc, &mut client, link)?;
    let report = client.next_report(rt, alloc, link)?;
    let first = read(rt, alloc, &mut client, link, FIRST)?;
    let second = read(rt, alloc, &mut client, link, SECOND)?;
    client.conclude(rt, alloc, link)?;
    Ok(Account {
        id: report.id,
        first,
        second,
    })
}

/// The account is that of the recorded server.
fn is_told(account: &Account) -> bool {
    account.id == 1
        && matches!(account.first, Ok(Value::Int(5)))
        && matches!(account.second, Err(10))
}

#[test]
fn a_client_asks_a_recorded_server(rt: HostRuntime) -> Result<(), AllocError> {
    let alloc = rt.alloc();
    for resumed in [[RESUMED, REPORT], [EARLY, &[]]] {
        let octets = joined(alloc, &[CALLED, resumed[0], resumed[1], READ, CONCLUDED])?;
        let mut link = link_to(alloc, octets, None, None)?;
        match ask(&rt, alloc, &mut link) {
            Ok(account) => assert!(rt; is_told(&account), "the account"),
            Err(stop) => assert!(rt; false, "{stop:?}"),
        }
        assert!(rt; link.sink.octets() == SENT, "what was sent");
    }
    Ok(())
}
