//! The parts of a rehearsal's input, one after another.

use crate::next::Next;
use crate::openings::heading_fault;
use crate::scripting::Scripts;
use crate::starting::{Started, start};
use record_outcome::configuring::{ended_before, gather, refused_before};
use record_outcome::status::Status;
use run_record::{Kind, is_long};
use std::alloc::{AllocError, Global};
use std::mem::replace;
use text_words::{is_skipped, parts_of};

/// Where the reading of an input is.
#[derive(Drop)]
pub enum Stage {
    /// Before the line `rehearse 1`.
    Opening,
    /// Among the lines of the configuration: how many lines are before it, and its octets so far.
    Configuring { before: u64, text: Vec<u8> },
    /// Among the scripts.
    Scripts(Scripts),
}

impl Stage {
    ghost use Rattle.std.specs.Prelude.{◌≡◌, ◌<◌, ◌^◌, IfOk, OnOk};
    ghost use Rattle.script_plans.specs.Moves.{Move};
    ghost use Rattle.script_plans.specs.Openings.{opening_at, started};
    ghost use Rattle.script_plans.specs.Inputs.{lines_at, passed as passed_at};
    ghost use Rattle.script_plans.specs.Inputs.{missing as missing_at};
    ghost use Rattle.record_outcome.specs.Judgements.{IsRefusal};
    ghost use Rattle.script_reading.specs.Readings.{place_of, Moved, IsDecided, IsWell, Starts};
    ghost use Rattle.script_reading.specs.Readings.{IsSoundStart};
    ghost use Rattle.script_reading.specs.declared.stage.Stage.TheVariants as stages;

    /// Goes on to another part.
    fn enter(&mut self, stage: Stage)
        ensures { self.new ≡ stage }
    {
        drop(replace(self, stage));
    }

    /// Reads a line before the configuration.
    fn open(&mut self, alloc: Global, number: u64, line: &[u8]) -> Result<Next, AllocError>
        requires stage { self.old ≡ stages.Opening }
        requires number { number < 2 ^ 62 }
        ensures moves { IfOk result (λ n. Moved n (place_of self.new)
            (opening_at number line.now)) }
        ensures decided { IfOk result IsDecided }
        ensures well { OnOk result (IsWell self.new) }
    {
        if is_long(line) {
            return Ok(Next::Stop(Status::Record {
                line: number,
                kind: Kind::Long.number(),
            }));
        }
        if is_skipped(line) {
            return Ok(Next::On);
        }
        let words = parts_of(alloc, line, b' ')?;
        if let Some(kind) = heading_fault(&words) {
            return Ok(Next::Stop(Status::Record {
                line: number,
                kind: kind.number(),
            }));
        }
        self.enter(Stage::Configuring {
            before: number,
            text: Vec::new(alloc),
        });
        Ok(Next::On)
    }

    /// Goes on with what became of the configuration.
    fn settle(&mut self, started: Started) -> Next
        requires sound { IsSoundStart started }
        ensures moves { (move : Move) → Starts started move
            → Moved result (place_of self.new) move }
        ensures decided { IsDecided result }
        ensures well { IsSoundStart started → IsWell self.old → IsWell self.new }
    {
        match started {
            Started::Plans(plan) => {
                self.enter(Stage::Scripts(Scripts::new(plan)));
                Next::On
            }
            Started::Refused(status) => Next::Stop(status),
        }
    }

    /// Reads a line, without its newline.
    pub fn read(&mut self, alloc: Global, number: u64, line: &[u8]) -> Result<Next, AllocError>
        requires well { IsWell self.old }
        requires number { number < 2 ^ 62 }
        ensures moves { IfOk result (λ n. Moved n (place_of self.new)
            (lines_at number (place_of self.old) line.now)) }
        ensures decided { IfOk result IsDecided }
        ensures well { OnOk result (IsWell self.new) }
    {
        match self {
            Stage::Opening => self.open(alloc, number, line),
            Stage::Configuring { before, text } => {
                if !gather(text, line)? {
                    return Ok(Next::On);
                }
                let whole = replace(text, Vec::new(alloc));
                let started = start(alloc, *before, whole)?;
                Ok(self.settle(started))
            }
            Stage::Scripts(scripts) => scripts.read(alloc, number, line),
        }
    }

    /// The status where the line with this number passes a limit.
    pub fn passed(&self, alloc: Global, which: u8, number: u64) -> Result<Status, AllocError>
        requires well { IsWell self.now }
        ensures status { IfOk result (λ s. s ≡ passed_at which number (place_of self.now)) }
        ensures refusal { IfOk result IsRefusal }
    {
        let status = Status::Limit {
            which,
            line: number,
        };
        match self {
            Stage::Configuring { before, text } => {
                refused_before(alloc, number, *before, text, status)
            }
            Stage::Opening => Ok(status),
            Stage::Scripts(_) => Ok(status),
        }
    }

    /// The status where the line with this number isn't there.
    pub fn missing(&self, alloc: Global, number: u64) -> Result<Status, AllocError>
        requires well { IsWell self.now }
        ensures status { IfOk result (λ s. s ≡ missing_at number (place_of self.now)) }
        ensures refusal { IfOk result IsRefusal }
    {
        let status = Status::Record {
            line: number,
            kind: Kind::NoEnd.number(),
        };
        match self {
            Stage::Configuring { before, text } => { ended_before(alloc, number, *before, text) }
            Stage::Opening => Ok(status),
            Stage::Scripts(_) => Ok(status),
        }
    }
}
