//! Rehearses scripts: reads them from standard input, lets them race over one bay, and writes the record that they made with its
//! answers to standard output.
#![tactic(auto)]

use command_line::{BAY_SERVER, is_word, show, words_of};
use record_outcome::status::Status;
use server_run::rehearse;
use std::process::ExitCode;
use std::{env, io};
use sv_io::{ReadSource, WriteSink};

fn main(rt: HostRuntime) -> ExitCode {
    let words = match words_of(rt.alloc(), env::args(&rt)) {
        Ok(words) => words,
        Err(status) => return BAY_SERVER.ended(&rt, status),
    };
    let mut sink = WriteSink::new(io::writer(&rt));
    if let Some(text) = BAY_SERVER.shown(&words) {
        return BAY_SERVER.ended(&rt, show(text, &mut sink));
    }
    if !is_word(&words, "rehearse") {
        return BAY_SERVER.ended(&rt, Status::Words);
    }
    let mut source = ReadSource::new(rt.reader());
    let status = rehearse(&rt, rt.alloc(), &mut source, &mut sink);
    BAY_SERVER.ended(&rt, status)
}
