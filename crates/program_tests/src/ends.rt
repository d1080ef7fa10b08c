//! Sources and sinks that fail at their first call, and the statuses that say so.

use command_line::{BAY_TOOL, show};
use record_outcome::status::Status;
use replay_run::tool::tool;
use server_run::rehearse;
use std::alloc::{AllocError, Global};
use std::sync::Wait;
use std::test::*;
use std::thread::Threads;
use sv_base::Octs;
use sv_io::{Calls, MemSink, MemSource};

/// The statuses that no row has, with their exit numbers and their words on standard error.
static STATUSES: [(Status, u8, &str); 3] = [
    (Status::Memory, 5, "memory"),
    (Status::ReadFault, 6, "read"),
    (Status::WriteFault, 7, "write"),
];

/// The words of `bay_tool`, each with an input that has an answer.
static INPUTS: [(&str, &str); 2] = [
    ("replay", "record 1\nconfig 1\nserver a b c\nend\nend\n"),
    ("check", "config 1\nserver a b c\nend\n"),
];

/// A rehearsal of one script.
const REHEARSAL: &str =
    "rehearse 1\nconfig 1\nserver a b c\nend\nscript association 1\nopen 1 direct\ntake 1\nclose\nend\n";

/// A status has this number and these words.
fn is_told(alloc: Global, status: Status, number: u8, words: &str) -> Result<bool, AllocError> {
    let text = format!(in alloc; "{status}")?;
    Ok(status.number() == number && text.as_str() == words)
}

/// A source of a text that fails at its first call, and goes on.
fn source(alloc: Global, text: &str) -> Result<MemSource, AllocError> {
    let octets = Octs::from_vec(Vec::from_slice(alloc, text.as_bytes())?);
    Ok(MemSource::new(octets, Calls::from_vec(vec![in alloc; 1]?)))
}

/// A sink that fails at its first call, and goes on.
fn sink(alloc: Global) -> Result<MemSink, AllocError> {
    Ok(MemSink::new(alloc, Calls::from_vec(vec![in alloc; 1]?)))
}

/// A run of `bay_tool` ends with the fault of its source, and the next one with that of its sink.
fn tool_fails(alloc: Global, word: &str, text: &str) -> Result<bool, AllocError> {
    let mut words = Vec::new(alloc);
    words.push(String::from_str(alloc, word)?)?;
    let mut source = source(alloc, text)?;
    let mut sink = sink(alloc)?;
    let first = tool(alloc, &words, &mut source, &mut sink);
    let second = tool(alloc, &words, &mut source, &mut sink);
    Ok(first == Status::ReadFault && second == Status::WriteFault)
}

/// The same of rehearsals.
fn rehearsal_fails<R: Threads + Wait + Sync>(rt: &R, alloc: Global) -> Result<bool, AllocError> {
    let mut source = source(alloc, REHEARSAL)?;
    let mut sink = sink(alloc)?;
    let first = rehearse(rt, alloc, &mut source, &mut sink);
    let second = rehearse(rt, alloc, &mut source, &mut sink);
    Ok(first == Status::ReadFault && second == Status::WriteFault)
}

/// A text that is shown ends with the fault of its sink, which has nothing of it.
fn show_fails(alloc: Global) -> Result<bool, AllocError> {
    let mut sink = sink(alloc)?;
    let status = show(BAY_TOOL.version, &mut sink);
    Ok(status == Status::WriteFault && sink.octets().is_empty())
}

#[test]
fn a_status_has_its_number_and_its_words(rt: HostRuntime) -> Result<(), Fail> {
    for (status, number, words) in &STATUSES {
        assert!(rt; is_told(rt.alloc(), *status, *number, words)?);
    }
    Ok(())
}

#[test]
fn a_fault_of_an_end_is_the_status(rt: HostRuntime) -> Result<(), Fail> {
    for (word, text) in &INPUTS {
        assert!(rt; tool_fails(rt.alloc(), word, text)?);
    }
    Ok(())
}

#[test]
fn a_fault_of_an_end_is_the_status_of_a_rehearsal(rt: HostRuntime) -> Result<(), Fail> {
    assert!(rt; rehearsal_fails(&rt, rt.alloc())?);
    Ok(())
}

#[test]
fn a_text_that_is_not_written_is_a_failed_write(rt: HostRuntime) -> Result<(), Fail> {
    assert!(rt; show_fails(rt.alloc())?);
    Ok(())
}
