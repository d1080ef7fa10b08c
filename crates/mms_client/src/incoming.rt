//! What comes from a server: its stream, and the reports of it that were not given yet.

ghost use Rattle.std.specs.Prelude.{◌≡◌, ◌≤◌, length, MatchResult, IfOk};
ghost use Rattle.std.specs.Io.KnownBytes.{Appends};
ghost use Rattle.mms_client.specs.declared.meaning.Awaited.{Awaited};
ghost use Rattle.mms_client.specs.Following.{ends, OnlyReads, IsLater, Writes};
ghost use Rattle.mms_client.specs.Following.{GoesOn, GoesToReport, BringsSome, Brings, FailsFor};
ghost use Rattle.mms_client.specs.Following.{IsBounded, IsSame};

use crate::fault::ClientFault;
use crate::link::send;
use crate::meaning::{Awaited, Outcome};
use crate::reports::Reports;
use crate::stream::Stream;
use bay_model::Report;
use std::alloc::Global;
use std::sync::Wait;
use sv_io::Link;

/// The stream of a server, and the reports of it that were not given yet.
#[derive(Drop)]
pub struct Incoming {
    pub stream: Stream,
    pub reports: Reports,
}

impl Incoming {
    /// Takes the next event, or one more piece: what was awaited, where it came.
    fn advance<L: Link>(
        &mut self,
        alloc: Global,
        link: &mut L,
        awaited: Awaited,
    ) -> Result<Option<Outcome>, ClientFault>
        ensures goes { let a = ends (L.left link.old) (L.taken link.old)
            (L.Source.faults link.old) (L.Sink.faults link.old)
            in let b = ends (L.left link.new) (L.taken link.new)
            (L.Source.faults link.new) (L.Sink.faults link.new)
            in MatchResult result
            (λ o. GoesOn self.old self.new a.left b.left (BringsSome awaited o))
            (λ f. FailsFor self.old a b awaited f) }
        ensures reads { let a = ends (L.left link.old) (L.taken link.old)
            (L.Source.faults link.old) (L.Sink.faults link.old)
            in let b = ends (L.left link.new) (L.taken link.new)
            (L.Source.faults link.new) (L.Sink.faults link.new)
            in OnlyReads a b }
        ensures bounded { IsBounded self.old → IsBounded self.new }
    {
        match self.stream.next() {
            Some(event) => self.reports.take_event(alloc, awaited, &event),
            None => {
                self.stream.fill(alloc, link)?;
                Ok(None)
            }
        }
    }

    /// Waits for what is awaited.
    fn wait<R: Wait, L: Link>(
        &mut self,
        rt: &R,
        alloc: Global,
        link: &mut L,
        awaited: Awaited,
    ) -> Result<Outcome, ClientFault>
        ensures goes { let a = ends (L.left link.old) (L.taken link.old)
            (L.Source.faults link.old) (L.Sink.faults link.old)
            in let b = ends (L.left link.new) (L.taken link.new)
            (L.Source.faults link.new) (L.Sink.faults link.new)
            in MatchResult result
            (λ o. GoesOn self.old self.new a.left b.left (Brings awaited o))
            (λ f. FailsFor self.old a b awaited f) }
        ensures reads { let a = ends (L.left link.old) (L.taken link.old)
            (L.Source.faults link.old) (L.Sink.faults link.old)
            in let b = ends (L.left link.new) (L.taken link.new)
            (L.Source.faults link.new) (L.Sink.faults link.new)
            in OnlyReads a b }
        ensures bounded { IsBounded self.old → IsBounded self.new }
    {
        for _ in rt.forever() {
            if let Some(outcome) = self.advance(alloc, link, awaited)? {
                return Ok(outcome);
            }
        }
        unreachable!()
    }

    /// Sends octets, and waits for what is awaited then.
    pub fn exchange<R: Wait, L: Link>(
        &mut self,
        rt: &R,
        alloc: Global,
        link: &mut L,
        octets: &[u8],
        awaited: Awaited,
    ) -> Result<Outcome, ClientFault>
        ensures goes { let a = ends (L.left link.old) (L.taken link.old)
            (L.Source.faults link.old) (L.Sink.faults link.old)
            in let b = ends (L.left link.new) (L.taken link.new)
            (L.Source.faults link.new) (L.Sink.faults link.new)
            in MatchResult result
            (λ o. GoesOn self.old self.new a.left b.left (Brings awaited o))
            (λ f. FailsFor self.old a b awaited f) }
        ensures writes { let a = ends (L.left link.old) (L.taken link.old)
            (L.Source.faults link.old) (L.Sink.faults link.old)
            in let b = ends (L.left link.new) (L.taken link.new)
            (L.Source.faults link.new) (L.Sink.faults link.new)
            in Writes a b octets.now result }
        ensures later { let a = ends (L.left link.old) (L.taken link.old)
            (L.Source.faults link.old) (L.Sink.faults link.old)
            in let b = ends (L.left link.new) (L.taken link.new)
            (L.Source.faults link.new) (L.Sink.faults link.new)
            in IsLater a b }
        ensures bounded { IsBounded self.old → IsBounded self.new }
    {
        send(link, octets)?;
        self.wait(rt, alloc, link, awaited)
    }

    /// Takes the next event, or one more piece, while no reply is awaited.
    fn go_on<L: Link>(&mut self, alloc: Global, link: &mut L) -> Result<(), ClientFault>
        ensures goes { let a = ends (L.left link.old) (L.taken link.old)
            (L.Source.faults link.old) (L.Sink.faults link.old)
            in let b = ends (L.left link.new) (L.taken link.new)
            (L.Source.faults link.new) (L.Sink.faults link.new)
            in MatchResult result
            (λ _. GoesOn self.old self.new a.left b.left (λ _ h k. IsSame h k))
            (λ f. FailsFor self.old a b Awaited.Reports f) }
        ensures reads { let a = ends (L.left link.old) (L.taken link.old)
            (L.Source.faults link.old) (L.Sink.faults link.old)
            in let b = ends (L.left link.new) (L.taken link.new)
            (L.Source.faults link.new) (L.Sink.faults link.new)
            in OnlyReads a b }
        ensures bounded { IsBounded self.old → IsBounded self.new }
    {
        let _ = self.advance(alloc, link, Awaited::Reports)?;
        Ok(())
    }

    /// Waits for the next report.
    pub fn report<R: Wait, L: Link>(
        &mut self,
        rt: &R,
        alloc: Global,
        link: &mut L,
    ) -> Result<Report, ClientFault>
        ensures goes { let a = ends (L.left link.old) (L.taken link.old)
            (L.Source.faults link.old) (L.Sink.faults link.old)
            in let b = ends (L.left link.new) (L.taken link.new)
            (L.Source.faults link.new) (L.Sink.faults link.new)
            in MatchResult result
            (λ r. GoesToReport self.old self.new a.left b.left r)
            (λ f. FailsFor self.old a b Awaited.Reports f) }
        ensures reads { let a = ends (L.left link.old) (L.taken link.old)
            (L.Source.faults link.old) (L.Sink.faults link.old)
            in let b = ends (L.left link.new) (L.taken link.new)
            (L.Source.faults link.new) (L.Sink.faults link.new)
            in OnlyReads a b }
        ensures bounded { IsBounded self.old → IsBounded self.new }
    {
        for _ in rt.forever() {
            if let Some(report) = self.reports.give() {
                return Ok(report);
            }
            self.go_on(alloc, link)?;
        }
        unreachable!()
    }
}
