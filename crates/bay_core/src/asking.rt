//! Requests of an association: a request is answered at its arrival, and the reply waits to be taken (ISO 9506-2, the confirmed
//! services).

ghost use Rattle.std.specs.Prelude.{◌≡◌, [], IfOk};
ghost use Rattle.bay_model.specs.declared.reply.Reply.TheVariants.{Wrote};
ghost use Rattle.bay_core.specs.Asked.{members_of, set_members};

use crate::bay::Bay;
use bay_histories::StepFault;
use bay_model::{
    Act, Acts, Answer, ApplError, ApplErrors, Codes, Output, Reply, Request, Service, Writes,
    service_errors,
};
use bay_queues::Heard;
use bay_replies::{Replies, set_name};
use data_sets::SetBook;
use std::alloc::{AllocError, Global};
use sv_base::{ActorNo, AssocNo, CtlNo, Moment, NodeId, Octs, Value, Values, rejections};

/// What a request came to: its reply with the errors before it, the controls that act, and those whose terminations follow the reply.
#[derive(Drop)]
pub(crate) struct Came {
    pub(crate) reply: Reply,
    pub(crate) before: Vec<ApplError>,
    pub(crate) acts: Vec<Act>,
    pub(crate) tests: Vec<CtlNo>,
}

/// A request came to its reply alone. It takes no memory.
fn alone(alloc: Global, reply: Reply) -> Came
    ensures reply { result.reply ≡ reply }
    ensures none { (result.before.items ≡ []) × (result.acts.items ≡ [])
        × (result.tests.items ≡ []) }
{
    Came {
        reply,
        before: Vec::new(alloc),
        acts: Vec::new(alloc),
        tests: Vec::new(alloc),
    }
}

/// A write came to its codes, and to what its commands came to.
fn wrote(heard: Heard) -> Came
    ensures reply { result.reply ≡ Wrote heard.codes }
    ensures before { result.before.items ≡ heard.before }
    ensures acts { result.acts.items ≡ heard.acts }
    ensures tests { result.tests.items ≡ heard.tests }
{
    let parts = heard.parts();
    Came {
        reply: Reply::Wrote(Codes::from_vec(parts.codes)),
        before: parts.before,
        acts: parts.acts,
        tests: parts.tests,
    }
}

/// The members of a data set by its name; none exactly where it isn't there.
fn members_named(
    alloc: Global,
    book: &SetBook,
    domain: &Octs,
    item: &Octs,
) -> Result<Option<Vec<NodeId>>, AllocError>
    ensures { IfOk result (λ found. members_of found ≡ set_members book.now domain.now item.now) }
{
    let name = set_name(alloc, domain, item)?;
    let number = book.number_named(&name);
    drop(name);
    match number {
        Some(number) => Ok(Some(Vec::from_slice(alloc, book.nodes(number))?)),
        None => Ok(None),
    }
}

impl Bay {
    ghost use Rattle.std.specs.Prelude.{◌≡◌, ◌<◌, ◌^◌, ◌∷◌, [], true, false, nat_le, IfOk, OnOk};
    ghost use Rattle.std.specs.Prelude.{OnErr};
    ghost use Rattle.bay_model.specs.declared.answer.Output.TheVariants as outputs;
    ghost use Rattle.bay_model.specs.declared.step.Step.TheVariants as steps;
    ghost use Rattle.object_model.specs.Fits.{fits as fits_in};
    ghost use Rattle.assoc_table.specs.declared.waiting.Waiting.TheVariants as waits;
    ghost use Rattle.assoc_table.specs.Seats.{replies};
    ghost use Rattle.assoc_table.specs.Tables.{IsNumber, extended, row_of};
    ghost use Rattle.bay_replies.specs.Asking.{IsReading, IsFitting};
    ghost use Rattle.bay_model.specs.declared.request.Service.TheVariants as services;
    ghost use Rattle.bay_model.specs.Singles.{writes_of};
    ghost use Rattle.bay_core.specs.Asked.{AreMembersFit, AreWritten, IsAnswered, IsReplied};
    ghost use Rattle.bay_core.specs.Asked.{IsReplyAt, IsKept, node_numbers};
    ghost use Rattle.bay_core.specs.Came.{IsCome, put_after};
    ghost use Rattle.bay_core.specs.Commanded.{AreNoCommands, AreTestsOf, CallsNothing};
    ghost use Rattle.bay_core.specs.Put.{IsOpenAt};
    ghost use Rattle.bay_core.specs.Turned.{IsLent};
    ghost use Rattle.bay_core.specs.Turns.{Does, IsCounted};

    /// What a reply is made of, as of the arrival of a step at a moment.
    pub(crate) fn replies(&self, moment: Moment) -> Replies<'_>
        ensures { IsLent result self.now moment }
    {
        // no moment lies above the last that a step can have
        let _last = self.latest.ms();
        Replies {
            model: &self.model,
            store: self.values.store(),
            groups: &self.groups,
            blocks: &self.parts,
            book: &self.sets,
            was: self.latest,
            now: self.latest.later(moment),
        }
    }

    /// The reply to a request that reads and writes no variable, as of the arrival of a step at a moment.
    fn reply_to(
        &self,
        alloc: Global,
        moment: Moment,
        a: AssocNo,
        service: &Service,
    ) -> Result<Reply, AllocError>
        requires number { IsNumber a.0 }
        requires fits { IsFitting self.now.config service.now }
        requires reading { IsReading service.now }
        ensures { IfOk result (λ r. IsReplyAt self.now moment a.0 service.now r) }
    {
        let size = self.associations.size(a).unwrap_or(0);
        self.replies(moment).reply(alloc, size, service)
    }

    /// Answers a request that reads and writes no variable: the reply is made, and then time passes.
    fn answer_read(
        &mut self,
        alloc: Global,
        moment: Moment,
        a: AssocNo,
        service: &Service,
    ) -> Result<Reply, AllocError>
        requires number { IsNumber a.0 }
        requires fits { IsFitting self.old.config service.now }
        requires reading { IsReading service.now }
        ensures answered { IfOk result
            (λ r. IsAnswered self.old self.new moment a.0 service.now r) }
        ensures kept { OnOk result (IsKept self.old self.new) }
        ensures refused { OnErr result (self.new ≡ self.old) }
    {
        let _ = &self.sets;
        let reply = self.reply_to(alloc, moment, a, service)?;
        self.arrive(moment);
        Ok(reply)
    }

    /// Answers a write of variables: memory for what comes of it and the errors that commands may have are made, and then time passes and
    /// each is written.
    fn answer_writes(
        &mut self,
        alloc: Global,
        moment: Moment,
        a: AssocNo,
        writes: &Writes,
    ) -> Result<Came, AllocError>
        requires number { IsNumber a.0 }
        requires is_open { IsOpenAt self.old a.0 }
        requires fits { IsFitting self.old.config (services.WriteVars writes.now) }
        ensures came { IfOk result (λ x. IsCome self.old self.new moment a.0
            (services.WriteVars writes.now) x) }
        ensures kept { OnOk result (IsKept self.old self.new) }
        ensures refused { OnErr result (self.new ≡ self.old) }
    {
        let mut blames = self.blames(alloc, writes.as_slice())?;
        let mut heard = Heard::new(alloc, writes.len())?;
        self.arrive(moment);
        self.write_all(a, writes.as_slice(), &mut blames, &mut heard);
        Ok(wrote(heard))
    }

    /// Answers a write of as many members of a data set as there are values: memory for the codes is made, and then time passes and
    /// each is written.
    fn answer_members(
        &mut self,
        alloc: Global,
        moment: Moment,
        a: AssocNo,
        nodes: &[NodeId],
        values: &[Value],
    ) -> Result<Vec<Result<(), u8>>, AllocError>
        requires number { IsNumber a.0 }
        requires is_open { IsOpenAt self.old a.0 }
        requires fit { AreMembersFit self.old.config nodes.now values.now }
        requires plain { AreNoCommands self.old.config nodes.now }
        ensures written { IfOk result (λ codes. AreWritten self.old self.new moment a.0
            (writes_of (node_numbers nodes.now) values.now) codes.items) }
        ensures kept { OnOk result (IsKept self.old self.new) }
        ensures refused { OnErr result (self.new ≡ self.old) }
    {
        let mut codes = Vec::with_capacity(alloc, nodes.len())?;
        self.arrive(moment);
        self.write_members(a, nodes, values, &mut codes);
        Ok(codes)
    }

    /// Answers a write by the name of a data set: another count of values than members is rejected as invalid arguments.
    fn answer_set(
        &mut self,
        alloc: Global,
        moment: Moment,
        a: AssocNo,
        domain: &Octs,
        item: &Octs,
        values: &Values,
    ) -> Result<Reply, AllocError>
        requires number { IsNumber a.0 }
        requires is_open { IsOpenAt self.old a.0 }
        requires fits { IsFitting self.old.config
            (services.WriteSet domain.now item.now values.now) }
        ensures answered { IfOk result (λ r. IsAnswered self.old self.new moment a.0
            (services.WriteSet domain.now item.now values.now) r) }
        ensures kept { OnOk result (IsKept self.old self.new) }
        ensures refused { OnErr result (self.new ≡ self.old) }
    {
        let _ = &self.sets;
        let Some(nodes) = members_named(alloc, &self.sets, domain, item)? else {
            self.arrive(moment);
            return Ok(Reply::Error {
                class: service_errors::ACCESS,
                code: service_errors::OBJECT_NON_EXISTENT,
            });
        };
        if nodes.len() != values.len() {
            self.arrive(moment);
            return Ok(Reply::Reject(rejections::INVALID_ARGUMENT));
        }
        let codes = self.answer_members(alloc, moment, a, nodes.as_slice(), values.as_slice())?;
        Ok(Reply::Wrote(Codes::from_vec(codes)))
    }

    /// Answers a request in which no command can be, at its arrival. What a request makes of the data sets belongs to the point of its
    /// reply.
    fn answer_plain(
        &mut self,
        alloc: Global,
        moment: Moment,
        a: AssocNo,
        service: &Service,
    ) -> Result<Reply, AllocError>
        requires number { IsNumber a.0 }
        requires is_open { IsOpenAt self.old a.0 }
        requires fits { IsFitting self.old.config service.now }
        requires plain { CallsNothing service.now }
        ensures answered { IfOk result (λ r. IsReplied self.old self.new moment a.0 service.now r) }
        ensures kept { OnOk result (IsKept self.old self.new) }
        ensures refused { OnErr result (self.new ≡ self.old) }
    {
        let _ = &self.model;
        match service {
            Service::Read { targets, spec } => {
                self.answer_variables(alloc, moment, a, targets, *spec)
            }
            Service::WriteSet {
                domain,
                item,
                values,
            } => self.answer_set(alloc, moment, a, domain, item, values),
            Service::Define {
                domain,
                item,
                members,
            } => self.answer_definition(alloc, moment, a, domain, item, members),
            Service::Delete { scope, names } => self.answer_deletion(moment, a, *scope, names),
            _ => self.answer_read(alloc, moment, a, service),
        }
    }

    /// Answers a request, at its arrival.
    fn answer(
        &mut self,
        alloc: Global,
        moment: Moment,
        a: AssocNo,
        service: &Service,
    ) -> Result<Came, AllocError>
        requires number { IsNumber a.0 }
        requires is_open { IsOpenAt self.old a.0 }
        requires fits { IsFitting self.old.config service.now }
        ensures came { IfOk result (λ x. IsCome self.old self.new moment a.0 service.now x) }
        ensures kept { OnOk result (IsKept self.old self.new) }
        ensures refused { OnErr result (self.new ≡ self.old) }
    {
        let _ = &self.model;
        match service {
            Service::WriteVars(writes) => self.answer_writes(alloc, moment, a, writes),
            _ => {
                let reply = self.answer_plain(alloc, moment, a, service)?;
                Ok(alone(alloc, reply))
            }
        }
    }

    /// What a request came to waits for its association: the reply with the errors before it, and the terminations of its tests after
    /// it; gives the acts. It takes no memory.
    fn put_reply(&mut self, a: AssocNo, invoke: u32, came: Came) -> Acts
        requires number { IsNumber a.0 }
        requires room { nat_le 16 (replies (row_of self.old.rows a.0).waiting) ≡ false }
        requires tests { AreTestsOf self.old a.0 came.tests.items }
        ensures acts { result ≡ came.acts.items }
        ensures put { self.new ≡ put_after a.0 invoke came self.old }
    {
        let output = Output::Reply {
            before: ApplErrors::from_vec(came.before),
            invoke,
            reply: came.reply,
        };
        self.associations.answer(a, output, came.tests.as_slice());
        Acts::from_vec(came.acts)
    }

    /// An association makes a request.
    pub(crate) fn ask(
        &mut self,
        alloc: Global,
        moment: Moment,
        actor: ActorNo,
        a: AssocNo,
        request: &Request,
    ) -> Result<Answer, StepFault>
        requires number { IsNumber a.0 }
        requires fits { fits_in self.old.config (steps.Ask a request.now) ≡ true }
        requires few { self.old.steps < 2 ^ 62 }
        ensures does { Does self.old self.new (record {
          moment = moment;
          actor = actor.0;
          step = steps.Ask a request.now;
        }) result }
        ensures counted { IsCounted self.old self.new result }
    {
        let Some(opener) = self.associations.opener(a) else {
            return Err(StepFault::NotOpen(a));
        };
        if actor.0 != opener.0 {
            return Err(StepFault::NotYours(a));
        }
        if self.associations.is_full(a) {
            return Err(StepFault::QueueFull(a));
        }
        let came = match self.answer(alloc, moment, a, &request.service) {
            Ok(came) => came,
            Err(_) => return Err(StepFault::Memory),
        };
        let acts = self.put_reply(a, request.invoke, came);
        self.count();
        Ok(Answer::Asked(acts))
    }
}
