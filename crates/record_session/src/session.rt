//! The lines of a record, counted.

use crate::stage::Stage;
use bay_model::Step;
use record_outcome::limits::{MOST_LINES, is_over};
use record_outcome::status::Status;
use std::alloc::{AllocError, Global};

/// What has been read of a record, line by line: how many lines, and where the reading is; and what the process set last.
#[derive(Drop)]
pub struct Session {
    lines: u64,
    stage: Stage,
    kept: Step,
}

impl Session {
    ghost use Rattle.std.specs.Prelude.{◌≡◌, ◌<◌, ◌≤◌, ◌+◌, ◌^◌, ◌++◌, ◌∷◌, [], suc, length, IfOk};
    ghost use Rattle.std.specs.Prelude.{IfSome, IfNone, OnOk};
    ghost use Rattle.record_outcome.specs.Moves.{Place};
    ghost use Rattle.record_outcome.specs.Records.{line_at, unended as unended_at};
    ghost use Rattle.record_outcome.specs.Records.{ended as ended_at, NoNewline};
    ghost use Rattle.record_session.specs.Sessions.{IsAt, AdvancesOn, Reads, Moves, steps_in};
    ghost use Rattle.record_session.specs.Sessions.{IsEarly};
    ghost use Rattle.record_outcome.specs.Judgements.{IsJudgement};

    /// Nothing is read yet.
    pub fn new() -> Session
        ensures reads { Reads result [] [] }
        ensures steps { steps_in result.stage ≡ 0 }
        ensures early { IsEarly result.stage }
        ensures lines { result.lines ≡ 0 }
    {
        Session {
            lines: 0,
            stage: Stage::Opening,
            kept: Step::Tick,
        }
    }

    /// Reads the next line.
    fn read_next(
        &mut self,
        alloc: Global,
        out: &mut Vec<u8>,
        line: &[u8],
    ) -> Result<Option<Status>, AllocError>
        requires few { steps_in self.old.stage + length line.now < 2 ^ 61 }
        requires early { IsEarly self.old.stage }
        requires lines { self.old.lines < 2 ^ 61 }
        ensures moves { IfOk result (λ s. AdvancesOn s self.old.stage self.new.stage
            (λ place. line_at (suc self.old.lines) place line.now) out.old.items out.new.items) }
        ensures judged { IfOk result (λ s. IfSome s IsJudgement) }
        ensures few { IfOk result
            (λ s. IfNone s (steps_in self.new.stage
            ≤ suc (steps_in self.old.stage + length line.now))) }
        ensures early { IfOk result (λ s. IfNone s (IsEarly self.new.stage)) }
        ensures lines { OnOk result (self.new.lines ≡ suc self.old.lines) }
    {
        self.lines += 1;
        let number = self.lines;
        if number > MOST_LINES {
            let status = self.stage.passed(alloc, 1, number)?;
            return Ok(Some(status));
        }
        self.stage.read(alloc, out, number, line, &mut self.kept)
    }

    /// Reads a line, without its newline, and writes its answer; or gives the status with which the reading stops.
    pub fn read(
        &mut self,
        alloc: Global,
        out: &mut Vec<u8>,
        line: &[u8],
    ) -> Result<Option<Status>, AllocError>
        requires few { steps_in self.old.stage + length line.now < 2 ^ 61 }
        requires early { IsEarly self.old.stage }
        requires lines { self.old.lines < 2 ^ 61 }
        requires whole { NoNewline line.now }
        ensures moves { IfOk result (λ s. Moves s self.old self.new
            (line.now ++ 10 ∷ []) out.old.items out.new.items) }
        ensures judged { IfOk result (λ s. IfSome s IsJudgement) }
        ensures few { IfOk result
            (λ s. IfNone s (steps_in self.new.stage
            ≤ suc (steps_in self.old.stage + length line.now))) }
        ensures early { IfOk result (λ s. IfNone s (IsEarly self.new.stage)) }
        ensures lines { OnOk result (self.new.lines ≤ suc self.old.lines) }
    {
        let stop = self.read_next(alloc, out, line)?;
        Ok(stop)
    }

    /// The status where the line with this number has begun, or hasn't, and doesn't end.
    fn unended(&self, alloc: Global, begun: bool, number: u64) -> Result<Status, AllocError>
        requires early { IsEarly self.now.stage }
        ensures status { IfOk result (λ s. (place : Place) → IsAt self.now.stage place
            → s ≡ unended_at begun number place) }
        ensures judged { IfOk result IsJudgement }
    {
        if is_over(begun, number) {
            self.stage.passed(alloc, 1, number)
        } else {
            self.stage.missing(alloc, number)
        }
    }

    /// The status where no whole line is left: the record passes the limit of octets, or, with the line that has begun, that of
    /// lines, or ends.
    pub fn ended(&self, alloc: Global, long: bool, begun: bool) -> Result<Status, AllocError>
        requires early { IsEarly self.now.stage }
        requires lines { self.now.lines < 2 ^ 61 }
        ensures status { IfOk result (λ s. (place : Place) → IsAt self.now.stage place
            → s ≡ ended_at long begun (suc self.now.lines) place) }
        ensures judged { IfOk result IsJudgement }
    {
        let number = self.lines + 1;
        if long {
            self.stage.passed(alloc, 3, number)
        } else {
            self.unended(alloc, begun, number)
        }
    }
}
