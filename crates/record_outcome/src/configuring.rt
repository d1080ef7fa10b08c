//! The lines of a configuration, in a record or in a rehearsal's input.

ghost use Rattle.std.specs.Prelude.{◌≡◌, ◌<◌, ◌^◌, ◌++◌, ◌∷◌, [], codes, IfOk, OnOk, OnErr};
ghost use Rattle.std.specs.Str.{bytes_eq};
ghost use Rattle.cfg_parser.specs.Looking.{config_at};
ghost use Rattle.record_outcome.specs.Records.{refused_before as refused_before_number};
ghost use Rattle.record_outcome.specs.Judgements.{IsJudgement, IsRefusal};

use crate::status::Status;
use cfg_text::{CfgFault, Kind, read_config};
use std::alloc::{AllocError, Global};

/// Puts a line of the configuration after those before it; gives whether it is the last one. Without memory nothing changes.
pub fn gather(text: &mut Vec<u8>, line: &[u8]) -> Result<bool, AllocError>
    ensures text { OnOk result (text.new.items ≡ text.old.items ++ (line.now ++ 10 ∷ [])) }
    ensures end { IfOk result (λ b. b ≡ bytes_eq line.now (codes "end")) }
    ensures err { OnErr result (text.new.items ≡ text.old.items) }
{
    let before = text.len();
    text.extend_from_slice(line)?;
    if text.push(b'\n').is_err() {
        text.truncate(before);
        return Err(AllocError);
    }
    Ok(line == b"end".as_slice())
}

/// The status of a configuration that isn't whole before a line, after n lines: that of its first refused line, or else
/// this one.
pub fn refused_before(
    alloc: Global,
    number: u64,
    before: u64,
    text: &[u8],
    status: Status,
) -> Result<Status, AllocError>
    requires few { before < 2 ^ 62 }
    requires refusal { IsRefusal status }
    ensures status { IfOk result (λ s. s ≡ refused_before_number number before status
        (config_at text.now)) }
    ensures refusal { IfOk result IsRefusal }
    ensures judged { IfOk result IsJudgement }
{
    match read_config(alloc, text) {
        Err(CfgFault::Refused { line, kind }) => {
            let line = before + u64::from(line);
            if line == number {
                return Ok(status);
            }
            Ok(Status::Config {
                line,
                kind: kind.number(),
            })
        }
        Err(CfgFault::Memory) => Err(AllocError),
        Ok(_) => Ok(status),
    }
}

/// The status of a configuration that has no line with this number, after n lines: that of its first refused line, or else
/// that a line is lacking.
pub fn ended_before(
    alloc: Global,
    number: u64,
    before: u64,
    text: &[u8],
) -> Result<Status, AllocError>
    requires few { before < 2 ^ 62 }
    ensures status { IfOk result (λ s. s ≡ refused_before_number number before
        (Status.Config number 2) (config_at text.now)) }
    ensures refusal { IfOk result IsRefusal }
    ensures judged { IfOk result IsJudgement }
{
    let status = Status::Config {
        line: number,
        kind: Kind::Order.number(),
    };
    refused_before(alloc, number, before, text, status)
}
