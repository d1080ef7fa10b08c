//! A configuration checked, and counted.

ghost use Rattle.std.specs.Prelude.{◌≡◌, ◌≤◌, ◌++◌, IfOk, IfSome, OnOk};
ghost use Rattle.std.specs.Io.KnownBytes.{Appends};
ghost use Rattle.sv_io.specs.Causes.{Rose, GrowsByFront};
ghost use Rattle.sv_io.specs.Taken.{TakesAtMost};
ghost use Rattle.replay_run.specs.Checked.{count, counts, IsChecked, IsOfCheck, Checks};
ghost use Rattle.replay_run.specs.Checked.{ChecksFront};
ghost use Rattle.replay_run.specs.Writing.{IsOfWriting};

use cfg_text::{CfgFault, read_config};
use object_model::domains;
use record_outcome::status::Status;
use std::alloc::{AllocError, Global};
use sv_base::Config;
use sv_io::{Failed, Sink, Source, Unread, read_whole};
use text_words::push_number;

/// The most octets that are read.
const MOST: usize = 67108865;

/// Writes one count.
fn push_count(out: &mut Vec<u8>, n: usize) -> Result<(), AllocError>
    ensures { OnOk result (out.new.items ≡ out.old.items ++ count n) }
{
    push_number(out, n as u64)
}

/// The line of the counts of a configuration.
fn counts_of(alloc: Global, config: &Config) -> Result<Vec<u8>, AllocError>
    ensures { IfOk result (λ v. v.items ≡ counts config.now) }
{
    let mut out = Vec::from_slice(alloc, b"ok")?;
    push_count(&mut out, domains(alloc, config.nodes.as_slice())?.len())?;
    push_count(&mut out, config.nodes.len())?;
    push_count(&mut out, config.attrs.len())?;
    push_count(&mut out, config.sets.len())?;
    push_count(&mut out, config.blocks.len())?;
    push_count(&mut out, config.controls.len())?;
    out.push(b'\n')?;
    Ok(out)
}

/// Writes the counts of a configuration.
fn tell<K: Sink>(alloc: Global, config: &Config, sink: &mut K) -> Status
    ensures told { result ≡ Status.Ok → Appends (K.taken sink.old) (K.taken sink.new)
        (counts config.now) }
    ensures front { GrowsByFront (K.taken sink.old) (K.taken sink.new) (counts config.now) }
    ensures listed { IsOfWriting result }
    ensures write { result ≡ Status.WriteFault → Rose (K.faults sink.old) (K.faults sink.new) }
    ensures later { K.faults sink.old ≤ K.faults sink.new }
{
    let Ok(line) = counts_of(alloc, config) else {
        return Status::Memory;
    };
    match sink.write_all(&line) {
        Ok(()) => Status::Ok,
        Err(Failed) => Status::WriteFault,
    }
}

/// Reads a configuration, and writes how many domains, logical nodes, attributes, data sets, report control blocks and
/// controls it has; or says its first refused line.
pub fn check<S: Source, K: Sink>(alloc: Global, source: &mut S, sink: &mut K) -> Status
    ensures told { IsChecked result
        → IfSome (S.left source.old) (λ b. Checks b result (K.taken sink.old) (K.taken sink.new)) }
    ensures front { IfSome (S.left source.old) (λ b. ChecksFront b (K.taken sink.old)
        (K.taken sink.new)) }
    ensures listed { IsOfCheck result }
    ensures taken { TakesAtMost 67108865 (S.left source.old) (S.left source.new) }
    ensures read { result ≡ Status.ReadFault → Rose (S.faults source.old) (S.faults source.new) }
    ensures write { result ≡ Status.WriteFault → Rose (K.faults sink.old) (K.faults sink.new) }
    ensures later { (S.faults source.old ≤ S.faults source.new)
        × (K.faults sink.old ≤ K.faults sink.new) }
{
    let octets = match read_whole(alloc, source, MOST) {
        Ok(octets) => octets,
        Err(Unread::Memory) => return Status::Memory,
        Err(Unread::Read) => return Status::ReadFault,
    };
    match read_config(alloc, &octets) {
        Ok(config) => tell(alloc, &config, sink),
        Err(CfgFault::Refused { line, kind }) => Status::Config {
            line: u64::from(line),
            kind: kind.number(),
        },
        Err(CfgFault::Memory) => Status::Memory,
    }
}
