//! The client.

ghost use Rattle.std.specs.Prelude.{◌≡◌, ◌≤◌, IfErr, IfOk, MatchResult};
ghost use Rattle.sv_base.specs.Depth.{depth, HasNoOther};
ghost use Rattle.sv_base.specs.Seen.{seen_of};
ghost use Rattle.mms_data.specs.Writable.{SeenHasFractions};
ghost use Rattle.mms_pdu.specs.Results.{seen_result};
ghost use Rattle.mms_client.specs.declared.fault.ClientFault.{ClientFault};
ghost use Rattle.mms_client.specs.declared.meaning.Awaited.TheVariants as awaits;
ghost use Rattle.mms_client.specs.References.{IsReference, IsBlock, reading_of, writing_of};
ghost use Rattle.mms_client.specs.References.{id_writing, enabling};
ghost use Rattle.mms_client.specs.Meaning.{AnswersRead, AnswersWrite};
ghost use Rattle.mms_client.specs.Following.{ends, IsLater};
ghost use Rattle.mms_client.specs.Standing.{Connects, Asks, GivesReport, Resumes, Concludes};
ghost use Rattle.mms_client.specs.Standing.{HasFailed, FailsToConnect, FailsToAsk, FailsToReport};
ghost use Rattle.mms_client.specs.Standing.{FailsToResume, FailsToConclude};

use crate::association::Association;
use crate::connecting::open;
use crate::fault::ClientFault;
use crate::incoming::Incoming;
use crate::reports::Reports;
use bay_model::Report;
use std::alloc::Global;
use std::sync::Wait;
use sv_base::{AccessResult, Value};
use sv_io::Link;

/// A client of a server. It keeps no link: each call is lent one, and what is said of octets holds where that is the same at
/// every call.
///
/// It stands for the octets that it read and wrote, the requests that it made and the reports that it gave. What it wrote is
/// the CR (ISO 8073), the CN of size 65000 and the minimal spelling of its requests in order, with invoke numbers from 1, and
/// again from 1 after 4294967295. After a fault every call answers that fault again, and leaves the link alone.
///
/// It keeps the stream's octets up to the end of a TSDU, the events of one piece of at most 4096 octets, at most 1024 reports
/// that wait, and one that was begun.
#[derive(Drop)]
pub struct Client {
    association: Association,
    fault: Option<ClientFault>,
}

impl Client {
    /// Makes an association over a link: sends the CR, and the CN that proposes PDUs of 65000 octets, and waits for the AC.
    pub fn connect<R: Wait, L: Link>(
        rt: &R,
        alloc: Global,
        link: &mut L,
    ) -> Result<Client, ClientFault>
        ensures connects { let a = ends (L.left link.old) (L.taken link.old)
            (L.Source.faults link.old) (L.Sink.faults link.old)
            in let b = ends (L.left link.new) (L.taken link.new)
            (L.Source.faults link.new) (L.Sink.faults link.new)
            in MatchResult result
            (λ c. Connects c a b) (λ f. FailsToConnect f a b) }
        ensures later { let a = ends (L.left link.old) (L.taken link.old)
            (L.Source.faults link.old) (L.Sink.faults link.old)
            in let b = ends (L.left link.new) (L.taken link.new)
            (L.Source.faults link.new) (L.Sink.faults link.new)
            in IsLater a b }
    {
        let (stream, line) = open(rt, alloc, link)?;
        Ok(Client {
            association: Association {
                incoming: Incoming {
                    stream,
                    reports: Reports::new(alloc),
                },
                line,
                invoke: 1,
            },
            fault: None,
        })
    }

    /// Keeps the fault of a call.
    fn settle<T: Drop>(&mut self, done: Result<T, ClientFault>) -> Result<T, ClientFault>
        ensures same { result ≡ done }
        ensures association { self.new.association ≡ self.old.association }
        ensures keeps { IfErr done (λ f. HasFailed self.new f) }
        ensures none { IfOk done (λ _. self.new.fault ≡ self.old.fault) }
    {
        if let Err(fault) = &done {
            self.fault = Some(*fault);
        }
        done
    }

    /// Reads a variable: its value, or the DataAccessError of why not.
    pub fn read<R: Wait, L: Link>(
        &mut self,
        rt: &R,
        alloc: Global,
        link: &mut L,
        reference: &str,
    ) -> Result<AccessResult, ClientFault>
        requires { IsReference reference.now }
        ensures asks { let a = ends (L.left link.old) (L.taken link.old)
            (L.Source.faults link.old) (L.Sink.faults link.old)
            in let b = ends (L.left link.new) (L.taken link.new)
            (L.Source.faults link.new) (L.Sink.faults link.new)
            in MatchResult result
            (λ v. Asks self.old self.new a b (reading_of reference.now)
            (λ n r. AnswersRead n r (seen_result v)))
            (λ f. FailsToAsk self.old f a b (reading_of reference.now) (λ n. awaits.Read n)) }
        ensures refuses { IfErr result (λ f. HasFailed self.new f) }
        ensures again { (f : ClientFault) → HasFailed self.old f
            → (result ≡ Err f) × (self.new ≡ self.old) × (link.new ≡ link.old) }
        ensures later { let a = ends (L.left link.old) (L.taken link.old)
            (L.Source.faults link.old) (L.Sink.faults link.old)
            in let b = ends (L.left link.new) (L.taken link.new)
            (L.Source.faults link.new) (L.Sink.faults link.new)
            in IsLater a b }
    {
        if let Some(fault) = self.fault {
            return Err(fault);
        }
        let done = self.association.read(rt, alloc, link, reference);
        self.settle(done)
    }

    /// Writes a variable: nothing, or the DataAccessError of why not.
    pub fn write<R: Wait, L: Link>(
        &mut self,
        rt: &R,
        alloc: Global,
        link: &mut L,
        reference: &str,
        value: &Value,
    ) -> Result<Result<(), u8>, ClientFault>
        requires reference { IsReference reference.now }
        requires no_other { HasNoOther value.now }
        requires depth { depth value.now ≤ 10 }
        requires fractions { SeenHasFractions (seen_of value.now) }
        ensures asks { let a = ends (L.left link.old) (L.taken link.old)
            (L.Source.faults link.old) (L.Sink.faults link.old)
            in let b = ends (L.left link.new) (L.taken link.new)
            (L.Source.faults link.new) (L.Sink.faults link.new)
            in MatchResult result
            (λ v. Asks self.old self.new a b (writing_of reference.now value.now)
            (λ n r. AnswersWrite n r v))
            (λ f. FailsToAsk self.old f a b (writing_of reference.now value.now)
            (λ n. awaits.Write n)) }
        ensures refuses { IfErr result (λ f. HasFailed self.new f) }
        ensures again { (f : ClientFault) → HasFailed self.old f
            → (result ≡ Err f) × (self.new ≡ self.old) × (link.new ≡ link.old) }
        ensures later { let a = ends (L.left link.old) (L.taken link.old)
            (L.Source.faults link.old) (L.Sink.faults link.old)
            in let b = ends (L.left link.new) (L.taken link.new)
            (L.Source.faults link.new) (L.Sink.faults link.new)
            in IsLater a b }
    {
        if let Some(fault) = self.fault {
            return Err(fault);
        }
        let done = self.association.write(rt, alloc, link, reference, value);
        self.settle(done)
    }

    /// Writes EntryID of a block.
    fn write_id<R: Wait, L: Link>(
        &mut self,
        rt: &R,
        alloc: Global,
        link: &mut L,
        block: &str,
        id: [u8; 8],
    ) -> Result<Result<(), u8>, ClientFault>
        requires { IsBlock block.now }
        ensures asks { let a = ends (L.left link.old) (L.taken link.old)
            (L.Source.faults link.old) (L.Sink.faults link.old)
            in let b = ends (L.left link.new) (L.taken link.new)
            (L.Source.faults link.new) (L.Sink.faults link.new)
            in MatchResult result
            (λ v. Asks self.old self.new a b (id_writing block.now id)
            (λ n r. AnswersWrite n r v))
            (λ f. FailsToAsk self.old f a b (id_writing block.now id)
            (λ n. awaits.Write n)) }
        ensures refuses { IfErr result (λ f. HasFailed self.new f) }
        ensures again { (f : ClientFault) → HasFailed self.old f
            → (result ≡ Err f) × (self.new ≡ self.old) × (link.new ≡ link.old) }
        ensures later { let a = ends (L.left link.old) (L.taken link.old)
            (L.Source.faults link.old) (L.Sink.faults link.old)
            in let b = ends (L.left link.new) (L.taken link.new)
            (L.Source.faults link.new) (L.Sink.faults link.new)
            in IsLater a b }
    {
        if let Some(fault) = self.fault {
            return Err(fault);
        }
        let done = self.association.write_id(rt, alloc, link, block, id);
        self.settle(done)
    }

    /// Writes TRUE to RptEna of a block.
    fn enable<R: Wait, L: Link>(
        &mut self,
        rt: &R,
        alloc: Global,
        link: &mut L,
        block: &str,
    ) -> Result<Result<(), u8>, ClientFault>
        requires { IsBlock block.now }
        ensures asks { let a = ends (L.left link.old) (L.taken link.old)
            (L.Source.faults link.old) (L.Sink.faults link.old)
            in let b = ends (L.left link.new) (L.taken link.new)
            (L.Source.faults link.new) (L.Sink.faults link.new)
            in MatchResult result
            (λ v. Asks self.old self.new a b (enabling block.now)
            (λ n r. AnswersWrite n r v))
            (λ f. FailsToAsk self.old f a b (enabling block.now) (λ n. awaits.Write n)) }
        ensures refuses { IfErr result (λ f. HasFailed self.new f) }
        ensures again { (f : ClientFault) → HasFailed self.old f
            → (result ≡ Err f) × (self.new ≡ self.old) × (link.new ≡ link.old) }
        ensures later { let a = ends (L.left link.old) (L.taken link.old)
            (L.Source.faults link.old) (L.Sink.faults link.old)
            in let b = ends (L.left link.new) (L.taken link.new)
            (L.Source.faults link.new) (L.Sink.faults link.new)
            in IsLater a b }
    {
        if let Some(fault) = self.fault {
            return Err(fault);
        }
        let done = self.association.enable(rt, alloc, link, block);
        self.settle(done)
    }

    /// Goes on after an entry of a block (IEC 61850-7-2): writes EntryID, and where that is accepted TRUE to RptEna. Nothing,
    /// or the DataAccessError of the first that is refused.
    pub fn resume<R: Wait, L: Link>(
        &mut self,
        rt: &R,
        alloc: Global,
        link: &mut L,
        block: &str,
        id: [u8; 8],
    ) -> Result<Result<(), u8>, ClientFault>
        requires { IsBlock block.now }
        ensures resumes { let a = ends (L.left link.old) (L.taken link.old)
            (L.Source.faults link.old) (L.Sink.faults link.old)
            in let b = ends (L.left link.new) (L.taken link.new)
            (L.Source.faults link.new) (L.Sink.faults link.new)
            in MatchResult result
            (λ v. Resumes self.old self.new a b (id_writing block.now id) (enabling block.now) v)
            (λ f. FailsToResume self.old f a b (id_writing block.now id) (enabling block.now)) }
        ensures refuses { IfErr result (λ f. HasFailed self.new f) }
        ensures again { (f : ClientFault) → HasFailed self.old f
            → (result ≡ Err f) × (self.new ≡ self.old) × (link.new ≡ link.old) }
        ensures later { let a = ends (L.left link.old) (L.taken link.old)
            (L.Source.faults link.old) (L.Sink.faults link.old)
            in let b = ends (L.left link.new) (L.taken link.new)
            (L.Source.faults link.new) (L.Sink.faults link.new)
            in IsLater a b }
    {
        match self.write_id(rt, alloc, link, block, id)? {
            Ok(()) => self.enable(rt, alloc, link, block),
            Err(code) => Ok(Err(code)),
        }
    }

    /// The next report, once all of it has come: of the reports of the octets read, joined of their segments, in order, each is
    /// given once.
    pub fn next_report<R: Wait, L: Link>(
        &mut self,
        rt: &R,
        alloc: Global,
        link: &mut L,
    ) -> Result<Report, ClientFault>
        ensures gives { let a = ends (L.left link.old) (L.taken link.old)
            (L.Source.faults link.old) (L.Sink.faults link.old)
            in let b = ends (L.left link.new) (L.taken link.new)
            (L.Source.faults link.new) (L.Sink.faults link.new)
            in MatchResult result
            (λ r. GivesReport self.old self.new a b r)
            (λ f. FailsToReport self.old f a b) }
        ensures refuses { IfErr result (λ f. HasFailed self.new f) }
        ensures again { (f : ClientFault) → HasFailed self.old f
            → (result ≡ Err f) × (self.new ≡ self.old) × (link.new ≡ link.old) }
        ensures later { let a = ends (L.left link.old) (L.taken link.old)
            (L.Source.faults link.old) (L.Sink.faults link.old)
            in let b = ends (L.left link.new) (L.taken link.new)
            (L.Source.faults link.new) (L.Sink.faults link.new)
            in IsLater a b }
    {
        if let Some(fault) = self.fault {
            return Err(fault);
        }
        let done = self.association.incoming.report(rt, alloc, link);
        self.settle(done)
    }

    /// Concludes the association (ISO 9506-2, Conclude), and then releases it (ISO 8650-1): writes the FN once the conclude was
    /// answered, and waits for the DN.
    pub fn conclude<R: Wait, L: Link>(
        mut self,
        rt: &R,
        alloc: Global,
        link: &mut L,
    ) -> Result<(), ClientFault>
        ensures concludes { let a = ends (L.left link.old) (L.taken link.old)
            (L.Source.faults link.old) (L.Sink.faults link.old)
            in let b = ends (L.left link.new) (L.taken link.new)
            (L.Source.faults link.new) (L.Sink.faults link.new)
            in MatchResult result
            (λ _. Concludes self a b) (λ f. FailsToConclude self f a b) }
        ensures again { (f : ClientFault) → HasFailed self f
            → (result ≡ Err f) × (link.new ≡ link.old) }
        ensures later { let a = ends (L.left link.old) (L.taken link.old)
            (L.Source.faults link.old) (L.Sink.faults link.old)
            in let b = ends (L.left link.new) (L.taken link.new)
            (L.Source.faults link.new) (L.Sink.faults link.new)
            in IsLater a b }
    {
        if let Some(fault) = self.fault {
            return Err(fault);
        }
        self.association.conclude(rt, alloc, link)
    }
}
