//! What the responses of the services hold, written (ISO 9506-2, Confirmed-ResponsePDU).

ghost use Rattle.std.specs.Prelude.{◌≡◌, ◌≤◌, ◌++◌, length, min, OnOk, IfOk};
ghost use Rattle.std.specs.List.{All};
ghost use Rattle.ber_write.specs.Minimal.{octets_of, uint_octets};
ghost use Rattle.mms_elements.specs.declared.tags.TheConstants.{GET_ATTRIBUTES, READ, WRITE};
ghost use Rattle.mms_elements.specs.declared.tags.TheConstants.{GET_LIST_ATTRIBUTES, DELETE_LIST};
ghost use Rattle.mms_elements.specs.declared.tags.TheConstants.{FAILURE, LIST_OF_RESULT};
ghost use Rattle.object_model.specs.Tables.{node_type};
ghost use Rattle.bay_answers.specs.declared.tags.TheConstants.{IDENTIFY};
ghost use Rattle.bay_answers.specs.RepliesContents.{identify_content, type_content, result_octets};
ghost use Rattle.bay_answers.specs.RepliesContents.{results_octets, read_content};
ghost use Rattle.bay_answers.specs.RepliesContents.{written_octets, written_content, set_content};
ghost use Rattle.bay_answers.specs.RepliesContents.{deleted_content};
ghost use Rattle.output_shapes.specs.Shapes.{IsWritable, IsNode};
ghost use Rattle.bay_answers.specs.Replies.{response};

use crate::replies_elements::{add_truth, begin, element_len, respond};
use crate::replies_variables::{add_nodes, asked_octets};
use crate::tags;
use bay_model::{Asked, service_errors};
use ber_write::{add, put_head, put_uint, uint_len};
use data_lengths::data_len;
use mms_data::{write_data, write_type};
use mms_elements::tags as pdu_tags;
use mms_pdu::write_error;
use object_model::Model;
use std::alloc::{AllocError, Global};
use sv_base::{AccessResult, NodeId, Octs};

/// The response of Identify.
pub(crate) fn identify(
    alloc: Global,
    model: &Model,
    size: u32,
    invoke: u32,
) -> Result<Octs, AllocError>
    requires { size ≤ 65000 }
    ensures { IfOk result (λ o. o ≡ response size invoke IDENTIFY (identify_content model.now)) }
{
    let config = model.config();
    let mut content = Vec::new(alloc);
    add(&mut content, tags::VENDOR_NAME, config.vendor.as_slice())?;
    add(&mut content, tags::MODEL_NAME, config.model.as_slice())?;
    add(&mut content, tags::REVISION, config.revision.as_slice())?;
    respond(alloc, size, invoke, tags::IDENTIFY, content.as_slice())
}

/// The response of GetVariableAccessAttributes.
pub(crate) fn type_of_node(
    alloc: Global,
    model: &Model,
    size: u32,
    invoke: u32,
    node: NodeId,
) -> Result<Octs, AllocError>
    requires node { IsNode model.now node }
    requires most { size ≤ 65000 }
    ensures { IfOk result (λ o. o ≡ response size invoke GET_ATTRIBUTES
        (type_content (node_type model.now node.0))) }
{
    let mut kind = Vec::new(alloc);
    write_type(model.type_of(node), &mut kind)?;
    let mut content = Vec::new(alloc);
    add_truth(&mut content, tags::MMS_DELETABLE, false)?;
    add(&mut content, tags::TYPE_DESCRIPTION, kind.as_slice())?;
    respond(
        alloc,
        size,
        invoke,
        pdu_tags::GET_ATTRIBUTES,
        content.as_slice(),
    )
}

/// How many octets a failure has.
#[tactic(auto, using(crate::proofs::RepliesSizeLaws::length_of_failure))]
fn failure_len(code: u8) -> u32
    ensures value { result ≡ length (octets_of FAILURE (uint_octets code)) }
    ensures few { result ≤ 15 }
{
    element_len(uint_len(u64::from(code)))
}

/// How many octets a result of a read has, and 4294967295 where there are more.
fn result_len(one: &AccessResult) -> u32
    ensures { result ≡ min (length (result_octets one.now)) 4294967295 }
{
    match one {
        Ok(value) => data_len(value),
        Err(code) => failure_len(*code),
    }
}

/// How many octets the results of a read have, and 4294967295 where there are more.
fn results_len(results: &[AccessResult]) -> u32
    ensures { result ≡ min (length (results_octets results.now)) 4294967295 }
{
    let mut sum = 0u32;
    for one in results {
        sum = sum.saturating_add(result_len(one));
    }
    sum
}

fn put_result(out: &mut Vec<u8>, one: &AccessResult) -> Result<(), AllocError>
    requires { IsWritable one.now }
    ensures { OnOk result (out.new.items ≡ out.old.items ++ result_octets one.now) }
{
    match one {
        Ok(value) => write_data(value, out),
        Err(code) => put_uint(out, pdu_tags::FAILURE, u64::from(*code)),
    }
}

fn put_results(out: &mut Vec<u8>, results: &[AccessResult]) -> Result<(), AllocError>
    requires { All IsWritable results.now }
    ensures { OnOk result (out.new.items ≡ out.old.items ++ results_octets results.now) }
{
    for one in results {
        put_result(out, one)?;
    }
    Ok(())
}

/// Adds what the response of Read holds: the octets of what was asked for, and the results, which have `len` octets.
#[tactic(auto, using(crate::proofs::RepliesSizeLaws::read_around))]
fn put_read(
    out: &mut Vec<u8>,
    asked: &[u8],
    len: u32,
    results: &[AccessResult],
) -> Result<(), AllocError>
    requires results { All IsWritable results.now }
    requires len { len ≡ length (results_octets results.now) }
    ensures { OnOk result (out.new.items ≡ out.old.items ++ (asked.now ++ octets_of LIST_OF_RESULT
        (results_octets results.now))) }
{
    out.extend_from_slice(asked)?;
    put_head(out, pdu_tags::LIST_OF_RESULT, len)?;
    put_results(out, results)
}

/// The response of Read.
#[tactic(auto, using(crate::proofs::RepliesSizeLaws::reads_too_much, crate::proofs::RepliesSizeLaws::read_refused))]
pub(crate) fn read(
    alloc: Global,
    size: u32,
    invoke: u32,
    asked: &Asked,
    results: &[AccessResult],
) -> Result<Octs, AllocError>
    requires results { All IsWritable results.now }
    requires most { size ≤ 65000 }
    ensures { IfOk result (λ o. o ≡ response size invoke READ
        (read_content asked.now results.now)) }
{
    let len = results_len(results);
    if len > size {
        return write_error(
            alloc,
            invoke,
            service_errors::SERVICE,
            service_errors::PDU_SIZE,
        );
    }
    let asked = asked_octets(alloc, asked)?;
    match begin(
        alloc,
        size,
        invoke,
        pdu_tags::READ,
        asked.len() + element_len(len) as usize,
    )? {
        Some(mut out) => {
            put_read(&mut out, asked.as_slice(), len, results)?;
            Ok(Octs::from_vec(out))
        }
        None => write_error(
            alloc,
            invoke,
            service_errors::SERVICE,
            service_errors::PDU_SIZE,
        ),
    }
}

fn put_code(out: &mut Vec<u8>, code: Result<(), u8>) -> Result<(), AllocError>
    ensures { OnOk result (out.new.items ≡ out.old.items ++ written_octets code) }
{
    match code {
        Ok(()) => out.extend_from_slice(&[pdu_tags::SUCCESS as u8, 0]),
        Err(code) => put_uint(out, pdu_tags::FAILURE, u64::from(code)),
    }
}

/// The response of Write.
pub(crate) fn wrote(
    alloc: Global,
    size: u32,
    invoke: u32,
    codes: &[Result<(), u8>],
) -> Result<Octs, AllocError>
    requires { size ≤ 65000 }
    ensures { IfOk result (λ o. o ≡ response size invoke WRITE (written_content codes.now)) }
{
    let mut content = Vec::new(alloc);
    for code in codes {
        put_code(&mut content, *code)?;
    }
    respond(alloc, size, invoke, pdu_tags::WRITE, content.as_slice())
}

/// The response of GetNamedVariableListAttributes.
pub(crate) fn members_of_set(
    alloc: Global,
    model: &Model,
    size: u32,
    invoke: u32,
    deletable: bool,
    members: &[NodeId],
) -> Result<Octs, AllocError>
    requires members { All (IsNode model.now) members.now }
    requires most { size ≤ 65000 }
    ensures { IfOk result (λ o. o ≡ response size invoke GET_LIST_ATTRIBUTES
        (set_content model.now deletable members.now)) }
{
    let mut list = Vec::new(alloc);
    add_nodes(alloc, &mut list, model, members)?;
    let mut content = Vec::new(alloc);
    add_truth(&mut content, tags::MMS_DELETABLE, deletable)?;
    add(&mut content, tags::LIST_OF_VARIABLE, list.as_slice())?;
    respond(
        alloc,
        size,
        invoke,
        pdu_tags::GET_LIST_ATTRIBUTES,
        content.as_slice(),
    )
}

/// The response of DeleteNamedVariableList.
pub(crate) fn deleted(
    alloc: Global,
    size: u32,
    invoke: u32,
    matched: u32,
    deleted: u32,
) -> Result<Octs, AllocError>
    requires { size ≤ 65000 }
    ensures { IfOk result (λ o. o ≡ response size invoke DELETE_LIST
        (deleted_content matched deleted)) }
{
    let mut content = Vec::new(alloc);
    put_uint(&mut content, tags::NUMBER_MATCHED, u64::from(matched))?;
    put_uint(&mut content, tags::NUMBER_DELETED, u64::from(deleted))?;
    respond(
        alloc,
        size,
        invoke,
        pdu_tags::DELETE_LIST,
        content.as_slice(),
    )
}
