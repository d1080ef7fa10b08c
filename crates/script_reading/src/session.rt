//! The lines of a rehearsal's input, counted.

use crate::next::Next;
use crate::stage::Stage;
use record_outcome::limits::{MOST_LINES, is_over};
use record_outcome::status::Status;
use std::alloc::{AllocError, Global};

/// What has been read of an input, line by line: how many lines, and where the reading is.
#[derive(Drop)]
pub struct Session {
    pub lines: u64,
    pub stage: Stage,
}

impl Session {
    ghost use Rattle.std.specs.Prelude.{◌≡◌, ◌<◌, ◌^◌, suc, IfOk, OnOk};
    ghost use Rattle.script_plans.specs.Inputs.{line_at, unended as unended_at, ended as ended_at};
    ghost use Rattle.record_outcome.specs.Judgements.{IsRefusal};
    ghost use Rattle.script_reading.specs.Readings.{place_of, Moved, IsDecided, IsWell};
    ghost use Rattle.script_reading.specs.declared.stage.Stage.TheVariants as stages;

    /// Nothing is read yet.
    pub fn new() -> Self
        ensures { result ≡ record { lines = 0; stage = stages.Opening } }
    {
        Session {
            lines: 0,
            stage: Stage::Opening,
        }
    }

    /// Reads the next line, without its newline.
    pub fn read(&mut self, alloc: Global, line: &[u8]) -> Result<Next, AllocError>
        requires well { IsWell self.old.stage }
        requires lines { self.old.lines < 2 ^ 61 }
        ensures moves { IfOk result (λ n. Moved n (place_of self.new.stage)
            (line_at (suc self.old.lines) (place_of self.old.stage) line.now)) }
        ensures decided { IfOk result IsDecided }
        ensures well { OnOk result (IsWell self.new.stage) }
        ensures lines { OnOk result (self.new.lines ≡ suc self.old.lines) }
    {
        self.lines += 1;
        let number = self.lines;
        if number > MOST_LINES {
            let status = self.stage.passed(alloc, 1, number)?;
            return Ok(Next::Stop(status));
        }
        self.stage.read(alloc, number, line)
    }

    /// The status where the line with this number has begun, or hasn't, and doesn't end.
    fn unended(&self, alloc: Global, begun: bool, number: u64) -> Result<Status, AllocError>
        requires well { IsWell self.now.stage }
        ensures status { IfOk result (λ s. s ≡ unended_at begun number (place_of self.now.stage)) }
        ensures refusal { IfOk result IsRefusal }
    {
        if is_over(begun, number) {
            self.stage.passed(alloc, 1, number)
        } else {
            self.stage.missing(alloc, number)
        }
    }

    /// The status where no whole line is left: the input passes the limit of octets, or, with the line that has begun, that of
    /// lines, or ends.
    pub fn ended(&self, alloc: Global, long: bool, begun: bool) -> Result<Status, AllocError>
        requires well { IsWell self.now.stage }
        requires lines { self.now.lines < 2 ^ 61 }
        ensures status { IfOk result (λ s. s ≡ ended_at long begun (suc self.now.lines)
            (place_of self.now.stage)) }
        ensures refusal { IfOk result IsRefusal }
    {
        let number = self.lines + 1;
        if long {
            self.stage.passed(alloc, 3, number)
        } else {
            self.unended(alloc, begun, number)
        }
    }
}
