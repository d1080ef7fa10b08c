//! The whole lines of pieces, and the part of a line after them.

ghost use Rattle.std.specs.Prelude.{◌<◌, ◌≤◌, ◌+◌, ◌^◌, length, IfOk, IfSome, IfNone};
ghost use Rattle.record_session.specs.Sessions.{LinesRead, steps_in, IsEarly};
ghost use Rattle.record_outcome.specs.Judgements.{IsJudgement};

use crate::session::Session;
use record_outcome::status::Status;
use std::alloc::{AllocError, Global};
use text_words::split_line;

/// Reads the whole lines at the front of these octets, up to one that stops the reading, and gives the rest.
fn read_lines<'a>(
    alloc: Global,
    session: &mut Session,
    out: &mut Vec<u8>,
    octets: &'a [u8],
) -> Result<(Option<Status>, &'a [u8]), AllocError>
    requires few { steps_in session.old.stage + length octets.now < 2 ^ 61 }
    requires early { IsEarly session.old.stage }
    requires lines { session.old.lines + length octets.now < 2 ^ 61 }
    ensures read { IfOk result
        (λ r. LinesRead r.0 r.1.now session.old session.new octets.now out.old.items
        out.new.items) }
    ensures judged { IfOk result (λ r. IfSome r.0 IsJudgement) }
    ensures few { IfOk result (λ r. IfNone r.0 (steps_in session.new.stage + length r.1.now
        ≤ steps_in session.old.stage + length octets.now)) }
    ensures early { IfOk result (λ r. IfNone r.0 (IsEarly session.new.stage)) }
    ensures lines { IfOk result (λ r. session.new.lines + length r.1.now
        ≤ session.old.lines + length octets.now) }
{
    let mut rest = octets;
    while let Some((line, after)) = split_line(rest) {
        if let Some(stop) = session.read(alloc, out, line)? {
            return Ok((Some(stop), after));
        }
        rest = after;
    }
    Ok((None, rest))
}

/// What has been read of a record, piece by piece: the session of its whole lines, and the part of a line after them.
#[derive(Drop)]
pub struct Reader {
    session: Session,
    held: Vec<u8>,
}

impl Reader {
    ghost use Rattle.std.specs.Prelude.{◌≡◌, ◌<◌, ◌≤◌, ◌+◌, ◌^◌, [], suc, length, IfOk, IfSome};
    ghost use Rattle.std.specs.Prelude.{IfNone, OnOk};
    ghost use Rattle.record_outcome.specs.Moves.{Place};
    ghost use Rattle.record_outcome.specs.Records.{has_begun, ended as ended_at, NoNewline};
    ghost use Rattle.record_session.specs.Sessions.{Fed, Feeds, IsAt, steps_in, IsEarly};
    ghost use Rattle.record_outcome.specs.Judgements.{IsJudgement};

    /// Nothing is read yet.
    pub fn new(alloc: Global) -> Reader
        ensures fed { Fed result [] [] }
        ensures part { NoNewline result.held.items }
        ensures steps { steps_in result.session.stage + length result.held.items ≡ 0 }
        ensures early { IsEarly result.session.stage }
        ensures lines { result.session.lines ≡ 0 }
    {
        Reader {
            session: Session::new(),
            held: Vec::new(alloc),
        }
    }

    /// The status where no whole line is left: the record passes a limit, or ends.
    pub fn ended(&self, alloc: Global, long: bool) -> Result<Status, AllocError>
        requires early { IsEarly self.now.session.stage }
        requires lines { self.now.session.lines < 2 ^ 61 }
        ensures status { IfOk result (λ s. (place : Place) → IsAt self.now.session.stage place
            → s ≡ ended_at long (has_begun self.now.held.items)
            (suc self.now.session.lines) place) }
        ensures judged { IfOk result IsJudgement }
    {
        self.session.ended(alloc, long, !self.held.is_empty())
    }

    /// Feeds a piece after whole lines.
    fn feed_lines(
        &mut self,
        alloc: Global,
        out: &mut Vec<u8>,
        piece: &[u8],
    ) -> Result<Option<Status>, AllocError>
        requires few { steps_in self.old.session.stage + length piece.now < 2 ^ 61 }
        requires early { IsEarly self.old.session.stage }
        requires lines { self.old.session.lines + length piece.now < 2 ^ 61 }
        requires none { self.old.held.items ≡ [] }
        ensures feeds { IfOk result
            (λ stop. Feeds stop self.old self.new piece.now out.old.items out.new.items) }
        ensures judged { IfOk result (λ stop. IfSome stop IsJudgement) }
        ensures part { OnOk result (NoNewline self.new.held.items) }
        ensures few { IfOk result
            (λ stop. IfNone stop (steps_in self.new.session.stage + length self.new.held.items
            ≤ steps_in self.old.session.stage + length piece.now)) }
        ensures early { IfOk result (λ stop. IfNone stop (IsEarly self.new.session.stage)) }
        ensures lines { OnOk result (self.new.session.lines
            ≤ self.old.session.lines + length piece.now) }
    {
        let (stop, rest) = read_lines(alloc, &mut self.session, out, piece)?;
        match stop {
            Some(stop) => Ok(Some(stop)),
            None => {
                self.held.extend_from_slice(rest)?;
                Ok(None)
            }
        }
    }

    /// Feeds a piece: the answers to the lines that end in it are written, up to one that stops the reading.
    pub fn feed(
        &mut self,
        alloc: Global,
        out: &mut Vec<u8>,
        piece: &[u8],
    ) -> Result<Option<Status>, AllocError>
        requires few { steps_in self.old.session.stage + length self.old.held.items + length
            piece.now < 2 ^ 61 }
        requires early { IsEarly self.old.session.stage }
        requires lines { self.old.session.lines + length piece.now < 2 ^ 61 }
        requires part { NoNewline self.old.held.items }
        ensures feeds { IfOk result
            (λ stop. Feeds stop self.old self.new piece.now out.old.items out.new.items) }
        ensures judged { IfOk result (λ stop. IfSome stop IsJudgement) }
        ensures part { OnOk result (NoNewline self.new.held.items) }
        ensures few { IfOk result
            (λ stop. IfNone stop (steps_in self.new.session.stage + length self.new.held.items
            ≤ steps_in self.old.session.stage + length self.old.held.items + length piece.now)) }
        ensures early { IfOk result (λ stop. IfNone stop (IsEarly self.new.session.stage)) }
        ensures lines { OnOk result (self.new.session.lines
            ≤ self.old.session.lines + length piece.now) }
    {
        if self.held.is_empty() {
            return self.feed_lines(alloc, out, piece);
        }
        let Some((end, after)) = split_line(piece) else {
            self.held.extend_from_slice(piece)?;
            return Ok(None);
        };
        self.held.extend_from_slice(end)?;
        if let Some(stop) = self.session.read(alloc, out, &self.held)? {
            return Ok(Some(stop));
        }
        self.held.clear();
        self.feed_lines(alloc, out, after)
    }
}
