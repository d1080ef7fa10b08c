//! An association that a client has.

ghost use Rattle.std.specs.Prelude.{◌≡◌, ◌≤◌, ◌++◌, ℕ, suc, MatchResult, IfOk, Ok};
ghost use Rattle.sv_base.specs.Depth.{depth, HasNoOther};
ghost use Rattle.sv_base.specs.Seen.{seen_of};
ghost use Rattle.mms_data.specs.Writable.{SeenHasFractions};
ghost use Rattle.osi_stack.specs.Framed.{framed};
ghost use Rattle.mms_client.specs.References.{IsReference, IsBlock, reading_of, writing_of};
ghost use Rattle.mms_client.specs.References.{id_writing, enabling};
ghost use Rattle.mms_client.specs.Requests.{number_after, pdu_of, conclude_octets, finish_octets};
ghost use Rattle.mms_client.specs.Following.{ends, IsLater, OnlyReads, Writes};
ghost use Rattle.mms_client.specs.Following.{GoesOn, GoesToReport, FailsFor, IsBounded, Numbers};
ghost use Rattle.mms_client.specs.Following.{Brings, GoesToEnd, FailsToEnd};

use crate::fault::{ClientFault, OTHER_REPLY};
use crate::incoming::Incoming;
use crate::line::SoundLine;
use crate::meaning::{Awaited, Outcome};
use crate::reference::component;
use crate::requests::{after, conclude_octets, finish_octets, read_octets, write_octets};
use bay_model::Report;
use std::alloc::Global;
use std::sync::Wait;
use sv_base::{AccessResult, Octs, Value};
use sv_io::Link;

/// A client that is connected.
#[derive(Drop)]
pub struct Association {
    pub incoming: Incoming,
    pub line: SoundLine,
    /// The invoke number of the next request.
    pub invoke: u32,
}

impl Association {
    /// Reads a variable.
    pub fn read<R: Wait, L: Link>(
        &mut self,
        rt: &R,
        alloc: Global,
        link: &mut L,
        reference: &str,
    ) -> Result<AccessResult, ClientFault>
        requires { IsReference reference.now }
        ensures goes { let a = ends (L.left link.old) (L.taken link.old)
            (L.Source.faults link.old) (L.Sink.faults link.old)
            in let b = ends (L.left link.new) (L.taken link.new)
            (L.Source.faults link.new) (L.Sink.faults link.new)
            in MatchResult result
            (λ v. GoesOn self.old.incoming self.new.incoming a.left b.left
            (Brings (Awaited.Read self.old.invoke) (Outcome.Read v)))
            (λ f. FailsFor self.old.incoming a b (Awaited.Read self.old.invoke) f) }
        ensures writes { let a = ends (L.left link.old) (L.taken link.old)
            (L.Source.faults link.old) (L.Sink.faults link.old)
            in let b = ends (L.left link.new) (L.taken link.new)
            (L.Source.faults link.new) (L.Sink.faults link.new)
            in Writes a b
            (framed self.old.line (pdu_of self.old.invoke (reading_of reference.now))) result }
        ensures numbers { IfOk result (λ _. Numbers self.old self.new) }
        ensures later { let a = ends (L.left link.old) (L.taken link.old)
            (L.Source.faults link.old) (L.Sink.faults link.old)
            in let b = ends (L.left link.new) (L.taken link.new)
            (L.Source.faults link.new) (L.Sink.faults link.new)
            in IsLater a b }
        ensures bounded { IsBounded self.old.incoming → IsBounded self.new.incoming }
    {
        let invoke = self.invoke;
        self.invoke = after(invoke);
        let octets = read_octets(alloc, self.line.get(), invoke, reference)?;
        let awaited = Awaited::Read(invoke);
        match self
            .incoming
            .exchange(rt, alloc, link, octets.as_slice(), awaited)?
        {
            Outcome::Read(result) => Ok(result),
            _ => Err(OTHER_REPLY),
        }
    }

    /// Writes a variable.
    pub fn write<R: Wait, L: Link>(
        &mut self,
        rt: &R,
        alloc: Global,
        link: &mut L,
        reference: &str,
        value: &Value,
    ) -> Result<Result<(), u8>, ClientFault>
        requires reference { IsReference reference.now }
        requires no_other { HasNoOther value.now }
        requires depth { depth value.now ≤ 10 }
        requires fractions { SeenHasFractions (seen_of value.now) }
        ensures goes { let a = ends (L.left link.old) (L.taken link.old)
            (L.Source.faults link.old) (L.Sink.faults link.old)
            in let b = ends (L.left link.new) (L.taken link.new)
            (L.Source.faults link.new) (L.Sink.faults link.new)
            in MatchResult result
            (λ v. GoesOn self.old.incoming self.new.incoming a.left b.left
            (Brings (Awaited.Write self.old.invoke) (Outcome.Written v)))
            (λ f. FailsFor self.old.incoming a b (Awaited.Write self.old.invoke) f) }
        ensures writes { let a = ends (L.left link.old) (L.taken link.old)
            (L.Source.faults link.old) (L.Sink.faults link.old)
            in let b = ends (L.left link.new) (L.taken link.new)
            (L.Source.faults link.new) (L.Sink.faults link.new)
            in Writes a b
            (framed self.old.line (pdu_of self.old.invoke (writing_of reference.now value.now))) result }
        ensures numbers { IfOk result (λ _. Numbers self.old self.new) }
        ensures later { let a = ends (L.left link.old) (L.taken link.old)
            (L.Source.faults link.old) (L.Sink.faults link.old)
            in let b = ends (L.left link.new) (L.taken link.new)
            (L.Source.faults link.new) (L.Sink.faults link.new)
            in IsLater a b }
        ensures bounded { IsBounded self.old.incoming → IsBounded self.new.incoming }
    {
        let invoke = self.invoke;
        self.invoke = after(invoke);
        let octets = write_octets(alloc, self.line.get(), invoke, reference, value)?;
        let awaited = Awaited::Write(invoke);
        match self
            .incoming
            .exchange(rt, alloc, link, octets.as_slice(), awaited)?
        {
            Outcome::Written(result) => Ok(result),
            _ => Err(OTHER_REPLY),
        }
    }

    /// Writes EntryID of a block.
    pub fn write_id<R: Wait, L: Link>(
        &mut self,
        rt: &R,
        alloc: Global,
        link: &mut L,
        block: &str,
        id: [u8; 8],
    ) -> Result<Result<(), u8>, ClientFault>
        requires { IsBlock block.now }
        ensures goes { let a = ends (L.left link.old) (L.taken link.old)
            (L.Source.faults link.old) (L.Sink.faults link.old)
            in let b = ends (L.left link.new) (L.taken link.new)
            (L.Source.faults link.new) (L.Sink.faults link.new)
            in MatchResult result
            (λ v. GoesOn self.old.incoming self.new.incoming a.left b.left
            (Brings (Awaited.Write self.old.invoke) (Outcome.Written v)))
            (λ f. FailsFor self.old.incoming a b (Awaited.Write self.old.invoke) f) }
        ensures writes { let a = ends (L.left link.old) (L.taken link.old)
            (L.Source.faults link.old) (L.Sink.faults link.old)
            in let b = ends (L.left link.new) (L.taken link.new)
            (L.Source.faults link.new) (L.Sink.faults link.new)
            in Writes a b
            (framed self.old.line (pdu_of self.old.invoke (id_writing block.now id))) result }
        ensures numbers { IfOk result (λ _. Numbers self.old self.new) }
        ensures later { let a = ends (L.left link.old) (L.taken link.old)
            (L.Source.faults link.old) (L.Sink.faults link.old)
            in let b = ends (L.left link.new) (L.taken link.new)
            (L.Source.faults link.new) (L.Sink.faults link.new)
            in IsLater a b }
        ensures bounded { IsBounded self.old.incoming → IsBounded self.new.incoming }
    {
        let reference = component(alloc, block, "$EntryID")?;
        let value = Value::Octets(Octs::copied(alloc, &id)?);
        self.write(rt, alloc, link, reference.as_str(), &value)
    }

    /// Writes TRUE to RptEna of a block.
    pub fn enable<R: Wait, L: Link>(
        &mut self,
        rt: &R,
        alloc: Global,
        link: &mut L,
        block: &str,
    ) -> Result<Result<(), u8>, ClientFault>
        requires { IsBlock block.now }
        ensures goes { let a = ends (L.left link.old) (L.taken link.old)
            (L.Source.faults link.old) (L.Sink.faults link.old)
            in let b = ends (L.left link.new) (L.taken link.new)
            (L.Source.faults link.new) (L.Sink.faults link.new)
            in MatchResult result
            (λ v. GoesOn self.old.incoming self.new.incoming a.left b.left
            (Brings (Awaited.Write self.old.invoke) (Outcome.Written v)))
            (λ f. FailsFor self.old.incoming a b (Awaited.Write self.old.invoke) f) }
        ensures writes { let a = ends (L.left link.old) (L.taken link.old)
            (L.Source.faults link.old) (L.Sink.faults link.old)
            in let b = ends (L.left link.new) (L.taken link.new)
            (L.Source.faults link.new) (L.Sink.faults link.new)
            in Writes a b
            (framed self.old.line (pdu_of self.old.invoke (enabling block.now))) result }
        ensures numbers { IfOk result (λ _. Numbers self.old self.new) }
        ensures later { let a = ends (L.left link.old) (L.taken link.old)
            (L.Source.faults link.old) (L.Sink.faults link.old)
            in let b = ends (L.left link.new) (L.taken link.new)
            (L.Source.faults link.new) (L.Sink.faults link.new)
            in IsLater a b }
        ensures bounded { IsBounded self.old.incoming → IsBounded self.new.incoming }
    {
        let reference = component(alloc, block, "$RptEna")?;
        self.write(rt, alloc, link, reference.as_str(), &Value::Bool(true))
    }

    /// Concludes and releases the association.
    pub fn conclude<R: Wait, L: Link>(
        &mut self,
        rt: &R,
        alloc: Global,
        link: &mut L,
    ) -> Result<(), ClientFault>
        ensures goes { let a = ends (L.left link.old) (L.taken link.old)
            (L.Source.faults link.old) (L.Sink.faults link.old)
            in let b = ends (L.left link.new) (L.taken link.new)
            (L.Source.faults link.new) (L.Sink.faults link.new)
            in MatchResult result
            (λ _. GoesToEnd self.old.incoming a b
            (conclude_octets self.old.line ++ finish_octets self.old.line))
            (λ f. FailsToEnd self.old.incoming a b
            (conclude_octets self.old.line) (finish_octets self.old.line) f) }
        ensures later { let a = ends (L.left link.old) (L.taken link.old)
            (L.Source.faults link.old) (L.Sink.faults link.old)
            in let b = ends (L.left link.new) (L.taken link.new)
            (L.Source.faults link.new) (L.Sink.faults link.new)
            in IsLater a b }
    {
        let line = self.line.get();
        let octets = conclude_octets(alloc, line)?;
        self.incoming
            .exchange(rt, alloc, link, octets.as_slice(), Awaited::Conclude)?;
        let finish = finish_octets(alloc, line)?;
        self.incoming
            .exchange(rt, alloc, link, finish.as_slice(), Awaited::Release)?;
        Ok(())
    }
}
