//! Replays a record or checks a configuration, read from standard input, or makes a record; what comes of it goes to standard output.
#![tactic(auto)]

use command_line::{BAY_TOOL, show, words_of};
use replay_run::tool::tool;
use std::process::ExitCode;
use std::{env, io};
use sv_io::{ReadSource, WriteSink};

/// Memory that is asked for and given back at once, in octets. The C library takes large buffers from the system, and gives them back to
/// it, one by one; once a buffer of this size was given back it keeps those up to it, so that what the reader of a configuration no
/// longer needs serves its model, in pages that are there already.
const KEPT_ROOM: usize = 4 << 20;

fn main(rt: HostRuntime) -> ExitCode {
    let words = match words_of(rt.alloc(), env::args(&rt)) {
        Ok(words) => words,
        Err(status) => return BAY_TOOL.ended(&rt, status),
    };
    let mut sink = WriteSink::new(io::writer(&rt));
    if let Some(text) = BAY_TOOL.shown(&words) {
        return BAY_TOOL.ended(&rt, show(text, &mut sink));
    }
    let _ = Vec::<u8>::with_capacity(rt.alloc(), KEPT_ROOM);
    let mut source = ReadSource::new(rt.reader());
    let status = tool(rt.alloc(), &words, &mut source, &mut sink);
    BAY_TOOL.ended(&rt, status)
}
