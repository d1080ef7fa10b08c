//! The parts of a record, one after another.

use crate::playing::Playing;
use crate::starting::{Started, start};
use bay_model::Step;
use record_outcome::configuring::{ended_before, gather, refused_before};
use record_outcome::openings::{Opened, open};
use record_outcome::status::Status;
use run_record::Kind;
use std::alloc::{AllocError, Global};
use std::mem::replace;

/// Where the reading of a record is.
#[derive(Drop)]
pub enum Stage {
    /// Before the line `record 1`.
    Opening,
    /// Among the lines of the configuration: how many lines are before it, and its octets so far.
    Configuring { before: u64, text: Vec<u8> },
    /// Among the steps.
    Playing(Playing),
}

impl Stage {
    ghost use Rattle.std.specs.Prelude.{◌≡◌, ◌<◌, ◌≤◌, ◌+◌, ◌^◌, suc, length, IfOk, IfSome, IfNone};
    ghost use Rattle.record_outcome.specs.Moves.{Place, Move};
    ghost use Rattle.record_session.specs.Plays.{Starts, IsSound};
    ghost use Rattle.record_outcome.specs.Openings.{opening_at};
    ghost use Rattle.record_session.specs.declared.stage.Stage.TheVariants as stages;
    ghost use Rattle.record_outcome.specs.Records.{lines_at, passed as passed_at};
    ghost use Rattle.record_outcome.specs.Records.{missing as missing_at};
    ghost use Rattle.record_session.specs.Sessions.{IsAt, AdvancesOn, steps_in, IsEarly, OpensOn};
    ghost use Rattle.record_session.specs.Sessions.{Settles};
    ghost use Rattle.record_outcome.specs.Judgements.{IsJudgement};

    /// Goes on to another part.
    fn enter(&mut self, stage: Stage)
        ensures { self.new ≡ stage }
    {
        drop(replace(self, stage));
    }

    /// Reads a line before the configuration.
    fn open(
        &mut self,
        alloc: Global,
        number: u64,
        line: &[u8],
    ) -> Result<Option<Status>, AllocError>
        requires stage { self.old ≡ stages.Opening }
        requires number { number < 2 ^ 62 }
        ensures moves { IfOk result (λ s. OpensOn s self.new (opening_at number line.now)) }
        ensures judged { IfOk result (λ s. IfSome s IsJudgement) }
        ensures few { IfOk result (λ s. IfNone s (steps_in self.new ≡ 0)) }
        ensures early { IfOk result (λ s. IfNone s (IsEarly self.new)) }
    {
        match open(alloc, line)? {
            Opened::Skip => Ok(None),
            Opened::Head => {
                self.enter(Stage::Configuring {
                    before: number,
                    text: Vec::new(alloc),
                });
                Ok(None)
            }
            Opened::Refused(kind) => Ok(Some(Status::Record {
                line: number,
                kind: kind.number(),
            })),
        }
    }

    /// Goes on with what became of the configuration.
    fn settle(&mut self, started: Started) -> Option<Status>
        requires judged { IsSound started }
        ensures settles { (move : Move) → Starts started move → Settles result self.new move }
        ensures judged { IfSome result IsJudgement }
        ensures few { IfNone result (steps_in self.new ≡ 0) }
        ensures early { IfNone result (IsEarly self.new) }
    {
        match started {
            Started::Plays(playing) => {
                self.enter(Stage::Playing(playing));
                None
            }
            Started::Refused(status) => Some(status),
        }
    }

    /// Reads a line of any part. It stays a call, so that a step line pays for no memory that the configuration takes.
    #[inline(never)]
    fn read_any(
        &mut self,
        alloc: Global,
        out: &mut Vec<u8>,
        number: u64,
        line: &[u8],
        kept: &mut Step,
    ) -> Result<Option<Status>, AllocError>
        requires few { steps_in self.old + length line.now < 2 ^ 61 }
        requires early { IsEarly self.old }
        requires number { number < 2 ^ 62 }
        ensures moves { IfOk result (λ s. AdvancesOn s self.old self.new
            (λ place. lines_at number place line.now) out.old.items out.new.items) }
        ensures judged { IfOk result (λ s. IfSome s IsJudgement) }
        ensures few { IfOk result
            (λ s. IfNone s (steps_in self.new ≤ suc (steps_in self.old + length line.now))) }
        ensures early { IfOk result (λ s. IfNone s (IsEarly self.new)) }
    {
        match self {
            Stage::Opening => self.open(alloc, number, line),
            Stage::Configuring { before, text } => {
                if !gather(text, line)? {
                    return Ok(None);
                }
                let started = start(alloc, *before, text)?;
                Ok(self.settle(started))
            }
            Stage::Playing(playing) => playing.read(alloc, out, number, line, kept),
        }
    }

    /// Reads a line, without its newline, and writes the answer to it; or gives the status with which the reading stops. What the
    /// process sets stays in a slot, whose memory serves again.
    pub fn read(
        &mut self,
        alloc: Global,
        out: &mut Vec<u8>,
        number: u64,
        line: &[u8],
        kept: &mut Step,
    ) -> Result<Option<Status>, AllocError>
        requires few { steps_in self.old + length line.now < 2 ^ 61 }
        requires early { IsEarly self.old }
        requires number { number < 2 ^ 62 }
        ensures moves { IfOk result (λ s. AdvancesOn s self.old self.new
            (λ place. lines_at number place line.now) out.old.items out.new.items) }
        ensures judged { IfOk result (λ s. IfSome s IsJudgement) }
        ensures few { IfOk result
            (λ s. IfNone s (steps_in self.new ≤ suc (steps_in self.old + length line.now))) }
        ensures early { IfOk result (λ s. IfNone s (IsEarly self.new)) }
    {
        match self {
            Stage::Playing(playing) => playing.read(alloc, out, number, line, kept),
            _ => self.read_any(alloc, out, number, line, kept),
        }
    }

    /// The status where the line with this number passes a limit.
    pub fn passed(&self, alloc: Global, which: u8, number: u64) -> Result<Status, AllocError>
        requires early { IsEarly self.now }
        ensures status { IfOk result (λ s. (place : Place) → IsAt self.now place
            → s ≡ passed_at which number place) }
        ensures judged { IfOk result IsJudgement }
    {
        let status = Status::Limit {
            which,
            line: number,
        };
        match self {
            Stage::Configuring { before, text } => {
                refused_before(alloc, number, *before, text, status)
            }
            Stage::Opening => Ok(status),
            Stage::Playing(_) => Ok(status),
        }
    }

    /// The status where the line with this number isn't there.
    pub fn missing(&self, alloc: Global, number: u64) -> Result<Status, AllocError>
        requires early { IsEarly self.now }
        ensures status { IfOk result (λ s. (place : Place) → IsAt self.now place
            → s ≡ missing_at number place) }
        ensures judged { IfOk result IsJudgement }
    {
        let status = Status::Record {
            line: number,
            kind: Kind::NoEnd.number(),
        };
        match self {
            Stage::Configuring { before, text } => { ended_before(alloc, number, *before, text) }
            Stage::Opening => Ok(status),
            Stage::Playing(_) => Ok(status),
        }
    }
}
