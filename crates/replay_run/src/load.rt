//! A made record that is replayed, and what its history comes to.

ghost use Rattle.std.specs.Prelude.{◌≡◌, ◌≤◌, ◌++◌, IfOk, OnOk};
ghost use Rattle.sv_io.specs.Causes.{Rose};
ghost use Rattle.made_records.specs.Texts.{made_record};
ghost use Rattle.record_outcome.specs.Histories.{lines_of, history_of};
ghost use Rattle.replay_run.specs.Loaded.{count_line, summary_text, WritesSummary};
ghost use Rattle.replay_run.specs.Writing.{IsOfWriting};

use crate::made::Asked;
use load_run::{Summary, load_made};
use record_outcome::status::Status;
use std::alloc::{AllocError, Global};
use sv_io::{Failed, Sink};
use text_words::push_number;

/// Adds a line of a word and a number.
fn push_count(out: &mut Vec<u8>, word: &[u8], n: u64) -> Result<(), AllocError>
    ensures { OnOk result (out.new.items ≡ out.old.items ++ count_line word.now n) }
{
    out.extend_from_slice(word)?;
    push_number(out, n)?;
    out.push(b'\n')?;
    Ok(())
}

/// The lines of a summary.
fn text_of(alloc: Global, summary: Summary) -> Result<Vec<u8>, AllocError>
    ensures { IfOk result (λ v. v.items ≡ summary_text summary) }
{
    let mut out = Vec::new(alloc);
    push_count(&mut out, b"steps", summary.steps)?;
    push_count(&mut out, b"reports", summary.reports)?;
    push_count(&mut out, b"marked", summary.marked)?;
    out.extend_from_slice(b"end\n")?;
    Ok(out)
}

/// Replays a made record, and writes what its history comes to.
pub fn load<K: Sink>(alloc: Global, asked: Asked, sink: &mut K) -> Status
    ensures told { result ≡ Status.Ok
        → WritesSummary (history_of (lines_of (made_record asked.seed asked.count)))
        (K.taken sink.old) (K.taken sink.new) }
    ensures listed { IsOfWriting result }
    ensures write { result ≡ Status.WriteFault → Rose (K.faults sink.old) (K.faults sink.new) }
    ensures later { K.faults sink.old ≤ K.faults sink.new }
{
    let Ok(summary) = load_made(alloc, asked.seed, asked.count) else {
        return Status::Memory;
    };
    let Ok(text) = text_of(alloc, summary) else {
        return Status::Memory;
    };
    match sink.write_all(&text) {
        Ok(()) => Status::Ok,
        Err(Failed) => Status::WriteFault,
    }
}
