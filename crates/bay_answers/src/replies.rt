//! The PDUs of what a bay answers (ISO 9506-2, MMSpdu; IEC 61850-8-1, the mapping of its services).

ghost use Rattle.std.specs.Prelude.{◌≡◌, ◌≤◌, ◌∷◌, ◌++◌, [], length, map, Ok, IfOk, OnOk};
ghost use Rattle.std.specs.List.{AllByRecursion};
ghost use Rattle.mms_pdu.specs.ReplyOctets.{concluded_octets};
ghost use Rattle.output_shapes.specs.Shapes.{CanBeReplied, CanBeSent, IsWritable};
ghost use Rattle.output_shapes.specs.Shapes.{IsShortTermination};
ghost use Rattle.bay_answers.specs.Replies.{rejected as rejected_of};
ghost use Rattle.bay_answers.specs.Replies.{reply_octets as octets_of_reply};
ghost use Rattle.bay_answers.specs.Replies.{output_pdus as pdus_of};
ghost use Rattle.bay_answers.specs.ControlPdus.{error_pdu as pdu_of_error};
ghost use Rattle.bay_answers.specs.ControlPdus.{termination_pdu as pdu_of_termination};
ghost use Rattle.sv_base.specs.declared.rejections.TheConstants.{UNKNOWN_PDU, INVALID_PDU};

use crate::control_pdus::{error_pdu, termination_pdu};
use crate::replies_contents::{deleted, identify, members_of_set, read, type_of_node, wrote};
use crate::replies_elements::respond;
use crate::replies_names::names;
use crate::tags;
use bay_model::{ApplError, ApplErrors, Output, Reply, Termination};
use mms_elements::tags as pdu_tags;
use mms_pdu::{write_error, write_reject};
use object_model::Model;
use report_cut::{Pdus, cut};
use std::alloc::{AllocError, Global};
use sv_base::{Octs, rejections};

/// What the response of Status holds (ISO 9506-2, Status-Response): vmdLogicalStatus state-changes-allowed, vmdPhysicalStatus
/// operational.
const OPERATIONAL: [u8; 6] = [0x80, 1, 0, 0x81, 1, 0];

/// The end of a conclude.
fn concluded(alloc: Global) -> Result<Octs, AllocError>
    ensures { IfOk result (λ o. o ≡ concluded_octets) }
{
    Ok(Octs::from_vec(Vec::from_slice(alloc, &[pdu_tags::CONCLUDE_RESPONSE as u8, 0])?))
}

/// A reject; those that answer a request have its invoke number.
fn rejected(alloc: Global, invoke: u32, number: u8) -> Result<Octs, AllocError>
    requires least { UNKNOWN_PDU ≤ number }
    requires most { number ≤ INVALID_PDU }
    ensures { IfOk result (λ o. o ≡ rejected_of invoke number) }
{
    if number == rejections::UNKNOWN_SERVICE || number == rejections::INVALID_ARGUMENT {
        write_reject(alloc, Some(invoke), number)
    } else {
        write_reject(alloc, None, number)
    }
}

/// The PDU of a reply.
fn reply_octets(
    alloc: Global,
    model: &Model,
    size: u32,
    invoke: u32,
    reply: &Reply,
) -> Result<Octs, AllocError>
    requires reply { CanBeReplied model.now reply.now }
    requires least { 1024 ≤ size }
    requires most { size ≤ 65000 }
    ensures { IfOk result (λ o. o ≡ octets_of_reply model.now size invoke reply.now) }
{
    match reply {
        Reply::Status => respond(alloc, size, invoke, tags::STATUS, &OPERATIONAL),
        Reply::Identify => identify(alloc, model, size, invoke),
        Reply::Conclude => concluded(alloc),
        Reply::Names(list) => names(alloc, size, invoke, list.as_slice()),
        Reply::TypeOfNode(node) => type_of_node(alloc, model, size, invoke, *node),
        Reply::Read { asked, results } => read(alloc, size, invoke, asked, results.as_slice()),
        Reply::Wrote(codes) => wrote(alloc, size, invoke, codes.as_slice()),
        Reply::Defined => respond(alloc, size, invoke, tags::DEFINE_LIST, &[]),
        Reply::SetOf { deletable, members } => {
            members_of_set(alloc, model, size, invoke, *deletable, members.as_slice())
        }
        Reply::Deleted {
            matched,
            deleted: gone,
        } => deleted(alloc, size, invoke, *matched, *gone),
        Reply::Error { class, code } => write_error(alloc, invoke, *class, *code),
        Reply::Reject(number) => rejected(alloc, invoke, *number),
    }
}

/// Adds the LastApplErrors before a reply.
fn add_errors(alloc: Global, pdus: &mut Vec<Octs>, before: &[ApplError]) -> Result<(), AllocError>
    ensures { OnOk result (pdus.new.items ≡ pdus.old.items ++ map pdu_of_error before.now) }
{
    for error in before {
        pdus.push(error_pdu(alloc, error)?)?;
    }
    Ok(())
}

/// The PDUs of a reply: the LastApplErrors before it, in order, and its own.
fn replied(
    alloc: Global,
    model: &Model,
    size: u32,
    before: &ApplErrors,
    invoke: u32,
    reply: &Reply,
) -> Result<Pdus, AllocError>
    requires reply { CanBeReplied model.now reply.now }
    requires least { 1024 ≤ size }
    requires most { size ≤ 65000 }
    ensures { IfOk result (λ p. p ≡ map pdu_of_error before.now
        ++ octets_of_reply model.now size invoke reply.now ∷ []) }
{
    let mut pdus = Vec::new(alloc);
    add_errors(alloc, &mut pdus, before.as_slice())?;
    pdus.push(reply_octets(alloc, model, size, invoke, reply)?)?;
    Ok(Pdus::from_vec(pdus))
}

/// The PDU of the end of a command.
fn ended(alloc: Global, model: &Model, termination: &Termination) -> Result<Pdus, AllocError>
    requires short { IsShortTermination model.now termination.now }
    requires oper { IsWritable (Ok termination.now.oper) }
    ensures { IfOk result (λ p. p ≡ pdu_of_termination model.now termination.now ∷ []) }
{
    let mut pdus = Vec::new(alloc);
    pdus.push(termination_pdu(alloc, model, termination)?)?;
    Ok(Pdus::from_vec(pdus))
}

/// The PDUs of an output, as the definition has them.
fn output_pdus(alloc: Global, model: &Model, output: &Output, size: u32) -> Result<Pdus, AllocError>
    requires output { CanBeSent model.now output.now }
    requires least { 1024 ≤ size }
    requires most { size ≤ 65000 }
    ensures { IfOk result (λ p. p ≡ pdus_of model.now size output.now) }
{
    match output {
        Output::Reply {
            before,
            invoke,
            reply,
        } => replied(alloc, model, size, before, *invoke, reply),
        Output::Report(report) => cut(alloc, report, size),
        Output::Termination(termination) => ended(alloc, model, termination),
    }
}

/// The PDUs of what a Take gives to an association whose PDUs have at most `size` octets, 1024 to 65000: of a reply its own after
/// one for each LastApplError before it, of a report one or its segments, of a termination one.
///
/// Each is in minimal form. A response that is longer than the size is the error service, pdu-size. GetNameList has as many
/// names as fit, and moreFollows exactly where there is a further one. What was read is written back where it was asked for.
///
/// Each node and control in the output is one of the model's, a reject has the number of a refusal, 1 to 4, a report is one that can
/// be cut, and a value has a spelling at most ten deep. What is said of a command has at most the octets of its type.
///
/// Fails only when out of memory.
pub fn to_bytes(
    alloc: Global,
    model: &Model,
    output: &Output,
    size: u32,
) -> Result<Pdus, AllocError>
    requires output { CanBeSent model.now output.now }
    requires least { 1024 ≤ size }
    requires most { size ≤ 65000 }
    ensures value { IfOk result (λ p. p ≡ pdus_of model.now size output.now) }
    ensures short { IfOk result (λ p. AllByRecursion (λ o. length o ≤ size) p) }
{
    let pdus = output_pdus(alloc, model, output, size)?;
    Ok(pdus)
}
