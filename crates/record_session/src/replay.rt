//! A replay: a record is read in pieces, and the answers are handed on.

ghost use Rattle.std.specs.Prelude.{◌≡◌, ◌≢◌, ◌≤◌, ◌<◌, ◌+◌, ◌-◌, ◌^◌, ℕ, List, [], suc, length};
ghost use Rattle.std.specs.Prelude.{Option, IfOk, IfSome, IfNone, OnOk, OnErr};
ghost use Rattle.std.specs.Io.KnownBytes.{Appends};
ghost use Rattle.sv_io.specs.Causes.{HasCause, Rose, GrowsByFront};
ghost use Rattle.record_outcome.specs.Records.{NoNewline, has_begun, ended};
ghost use Rattle.record_session.specs.Sessions.{Takes, steps_in, IsEarly, IsAt};
ghost use Rattle.sv_io.specs.Taken.{TakesAtMost};
ghost use Rattle.record_outcome.specs.Judgements.{IsJudgement, IsRefusal, IsOfReplay, Answers};
ghost use Rattle.record_outcome.specs.Grammar.{IsNoRecord};
ghost use Rattle.record_outcome.specs.Written.{WritesHistory};
ghost use Rattle.record_session.specs.Runs.{IsReady, Run};
ghost use Rattle.record_session.specs.Fronts.{WritesFront, BeginsOn, FrontsOn};
ghost use Rattle.record_outcome.specs.Moves.{Place};

use crate::reader::Reader;
use record_outcome::limits::MOST_OCTETS;
use record_outcome::status::Status;
use std::alloc::{AllocError, Global};
use sv_io::{Failed, Sink, Source, read_piece};

/// Hands what was written to the sink.
fn flush<K: Sink>(out: &mut Vec<u8>, sink: &mut K) -> Result<(), Failed>
    ensures taken { OnOk result (Appends (K.taken sink.old) (K.taken sink.new) out.old.items) }
    ensures front { OnErr result (GrowsByFront (K.taken sink.old)
        (K.taken sink.new) out.old.items) }
    ensures empty { OnOk result (out.new.items ≡ []) }
    ensures cause { HasCause (K.faults sink.old) (K.faults sink.new) result }
{
    if out.is_empty() {
        return Ok(());
    }
    match sink.write_all(out) {
        Ok(()) => {
            out.clear();
            Ok(())
        }
        Err(Failed) => Err(Failed),
    }
}

/// Why a replay is broken off.
#[derive(Clone, Copy, Debug)]
enum Halt {
    Memory,
    Write,
}

/// Feeds a piece, and hands the answers to the sink.
fn take_piece<K: Sink>(
    alloc: Global,
    reader: &mut Reader,
    out: &mut Vec<u8>,
    piece: &[u8],
    sink: &mut K,
) -> Result<Option<Status>, Halt>
    requires few { steps_in reader.old.session.stage + length reader.old.held.items + length
        piece.now < 2 ^ 61 }
    requires early { IsEarly reader.old.session.stage }
    requires lines { reader.old.session.lines + length piece.now < 2 ^ 61 }
    requires part { NoNewline reader.old.held.items }
    requires empty { out.old.items ≡ [] }
    ensures takes { IfOk result (λ stop. Takes stop reader.old reader.new piece.now
        (K.taken sink.old) (K.taken sink.new)) }
    ensures front { BeginsOn reader.old piece.now (K.taken sink.old) (K.taken sink.new) }
    ensures judged { IfOk result (λ stop. IfSome stop IsJudgement) }
    ensures part { OnOk result (NoNewline reader.new.held.items) }
    ensures few { IfOk result
        (λ stop. IfNone stop (steps_in reader.new.session.stage + length reader.new.held.items
        ≤ steps_in reader.old.session.stage + length reader.old.held.items + length piece.now)) }
    ensures early { IfOk result (λ stop. IfNone stop (IsEarly reader.new.session.stage)) }
    ensures lines { OnOk result (reader.new.session.lines
        ≤ reader.old.session.lines + length piece.now) }
    ensures empty { OnOk result (out.new.items ≡ []) }
    ensures later { K.faults sink.old ≤ K.faults sink.new }
    ensures cause { result ≡ Err Halt.Write → Rose (K.faults sink.old) (K.faults sink.new) }
{
    match reader.feed(alloc, out, piece) {
        Ok(stop) => match flush(out, sink) {
            Ok(()) => Ok(stop),
            Err(Failed) => Err(Halt::Write),
        },
        Err(AllocError) => Err(Halt::Memory),
    }
}

/// The status where no whole line is left: the record passes a limit, or ends.
fn end(alloc: Global, reader: &Reader, long: bool) -> Status
    requires early { IsEarly reader.now.session.stage }
    requires lines { reader.now.session.lines < 2 ^ 61 }
    ensures status { IsJudgement result → (place : Place) → IsAt reader.now.session.stage place
        → result ≡ ended long (has_begun reader.now.held.items)
        (suc reader.now.session.lines) place }
    ensures listed { IsOfReplay result }
    ensures read { result ≢ Status.ReadFault }
    ensures write { result ≢ Status.WriteFault }
{
    match reader.ended(alloc, long) {
        Ok(status) => status,
        Err(AllocError) => Status::Memory,
    }
}

/// A replay of a record: what was read, how many octets, and memory for the answers to a piece.
#[derive(Drop)]
pub struct Replay {
    reader: Reader,
    count: usize,
    out: Vec<u8>,
}

impl Replay {
    ghost use Rattle.std.specs.Prelude.{◌≡◌, ◌≢◌, ◌≤◌, ◌<◌, ◌-◌, ℕ, List, Option, None, length};
    ghost use Rattle.std.specs.Prelude.{IfNone, IfSome};
    ghost use Rattle.std.specs.Bool.{MatchBool};
    ghost use Rattle.sv_io.specs.Causes.{Rose};
    ghost use Rattle.record_session.specs.Runs.{IsReady, Run, Turns};
    ghost use Rattle.record_session.specs.Fronts.{FrontsOn};
    ghost use Rattle.record_outcome.specs.Judgements.{IsJudgement, IsOfReplay, Answers};
    ghost use Rattle.sv_io.specs.Taken.{TakesAtMost};
    ghost use Rattle.record_outcome.specs.declared.status.Status.TheVariants as statuses;

    /// Nothing is read yet.
    pub fn new(alloc: Global) -> Replay
        ensures ready { IsReady result }
        ensures count { result.count ≡ 0 }
        ensures run { (left taken : Option (List ℕ))
            → Run result.reader left left taken taken result.count }
    {
        Replay {
            reader: Reader::new(alloc),
            count: 0,
            out: Vec::new(alloc),
        }
    }

    /// The limit of octets isn't reached.
    pub fn has_room(&self) -> bool
        ensures { MatchBool result (self.now.count < 67108864) (67108864 ≤ self.now.count) }
    {
        self.count < MOST_OCTETS
    }

    /// Reads a piece and answers the lines that end in it, below the limit of octets; gives the status where that is
    /// decided.
    pub fn turn<S: Source, K: Sink>(
        &mut self,
        alloc: Global,
        source: &mut S,
        sink: &mut K,
        piece: &mut [u8],
    ) -> Option<Status>
        requires ready { IsReady self.old }
        requires some { 0 < length piece.old }
        requires room { self.old.count < 67108864 }
        ensures turns { Turns result self.old self.new (S.left source.old) (S.left source.new)
            (K.taken sink.old) (K.taken sink.new) }
        ensures front { FrontsOn self.old (S.left source.old) (S.left source.new) (K.taken sink.old)
            (K.taken sink.new) }
        ensures ready { IfNone result (IsReady self.new) }
        ensures further { IfNone result (self.old.count < self.new.count) }
        ensures taken { TakesAtMost (67108864 - self.old.count) (S.left source.old)
            (S.left source.new) }
        ensures counted { IfNone result (TakesAtMost (self.new.count - self.old.count)
            (S.left source.old) (S.left source.new)) }
        ensures listed { IfSome result IsOfReplay }
        ensures read { result ≡ Some statuses.ReadFault
            → Rose (S.faults source.old) (S.faults source.new) }
        ensures write { result ≡ Some statuses.WriteFault
            → Rose (K.faults sink.old) (K.faults sink.new) }
        ensures later { (S.faults source.old ≤ S.faults source.new)
            × (K.faults sink.old ≤ K.faults sink.new) }
    {
        let room = (MOST_OCTETS - self.count).min(piece.len());
        let length = match read_piece(source, piece, room) {
            Ok(length) => length,
            Err(Failed) => return Some(Status::ReadFault),
        };
        if length == 0 {
            return Some(end(alloc, &self.reader, false));
        }
        match take_piece(
            alloc,
            &mut self.reader,
            &mut self.out,
            &piece[..length],
            sink,
        ) {
            Ok(None) => {
                self.count += length;
                None
            }
            Ok(Some(status)) => Some(status),
            Err(Halt::Memory) => Some(Status::Memory),
            Err(Halt::Write) => Some(Status::WriteFault),
        }
    }

    /// The status where the limit of octets is reached, with no whole line after those that were read.
    pub fn at_limit<S: Source>(&self, alloc: Global, source: &mut S) -> Status
        requires ready { IsReady self.now }
        requires full { 67108864 ≤ self.now.count }
        ensures told { (left taken told : Option (List ℕ))
            → Run self.now.reader left (S.left source.old) taken told self.now.count
            → IsJudgement result → IfSome left (λ b. Answers b result taken told) }
        ensures front { (told : Option (List ℕ))
            → FrontsOn self.now (S.left source.old) (S.left source.new) told told }
        ensures listed { IsOfReplay result }
        ensures taken { TakesAtMost 1 (S.left source.old) (S.left source.new) }
        ensures read { result ≡ statuses.ReadFault
            → Rose (S.faults source.old) (S.faults source.new) }
        ensures write { result ≢ statuses.WriteFault }
        ensures later { S.faults source.old ≤ S.faults source.new }
    {
        match read_piece(source, &mut [0u8; 1], 1) {
            Ok(0) => end(alloc, &self.reader, false),
            Ok(_) => end(alloc, &self.reader, true),
            Err(Failed) => Status::ReadFault,
        }
    }
}

/// Reads pieces of a record until its status is decided.
fn run<S: Source, K: Sink>(
    alloc: Global,
    replay: &mut Replay,
    source: &mut S,
    sink: &mut K,
    piece: &mut [u8],
) -> Status
    requires ready { IsReady replay.old }
    requires some { 0 < length piece.old }
    ensures told { (left taken : Option (List ℕ))
        → Run replay.old.reader left (S.left source.old) taken (K.taken sink.old) replay.old.count
        → IsJudgement result → IfSome left (λ b. Answers b result taken (K.taken sink.new)) }
    ensures front { FrontsOn replay.old (S.left source.old) (S.left source.new) (K.taken sink.old)
        (K.taken sink.new) }
    ensures listed { IsOfReplay result }
    ensures taken { TakesAtMost (67108865 - replay.old.count) (S.left source.old)
        (S.left source.new) }
    ensures read { result ≡ Status.ReadFault → Rose (S.faults source.old) (S.faults source.new) }
    ensures write { result ≡ Status.WriteFault → Rose (K.faults sink.old) (K.faults sink.new) }
    ensures later { (S.faults source.old ≤ S.faults source.new)
        × (K.faults sink.old ≤ K.faults sink.new) }
{
    while replay.has_room() {
        if let Some(status) = replay.turn(alloc, source, sink, piece) {
            return status;
        }
    }
    replay.at_limit(alloc, source)
}

/// Replays a record: each line is answered before the next is judged.
pub fn replay_record<S: Source, K: Sink>(alloc: Global, source: &mut S, sink: &mut K) -> Status
    ensures told { IsJudgement result
        → IfSome (S.left source.old) (λ b. Answers b result (K.taken sink.old) (K.taken sink.new)) }
    ensures history { IsJudgement result
        → IfSome (S.left source.old) (λ b. WritesHistory b result (K.taken sink.old)
        (K.taken sink.new)) }
    ensures whole { IsRefusal result → IfSome (S.left source.old) IsNoRecord }
    ensures front { WritesFront (S.left source.old) (S.left source.new) (K.taken sink.old)
        (K.taken sink.new) }
    ensures listed { IsOfReplay result }
    ensures taken { TakesAtMost 67108865 (S.left source.old) (S.left source.new) }
    ensures read { result ≡ Status.ReadFault → Rose (S.faults source.old) (S.faults source.new) }
    ensures write { result ≡ Status.WriteFault → Rose (K.faults sink.old) (K.faults sink.new) }
    ensures later { (S.faults source.old ≤ S.faults source.new)
        × (K.faults sink.old ≤ K.faults sink.new) }
{
    let mut replay = Replay::new(alloc);
    let mut piece = [0u8; 16384];
    let status = run(alloc, &mut replay, source, sink, &mut piece);
    drop(replay);
    status
}
