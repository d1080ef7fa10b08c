//! Whether an output of a bay has PDUs.

ghost use Rattle.std.specs.Prelude.{◌≡◌, IsTrue, Ok, IfSome, length};
ghost use Rattle.std.specs.List.{All, list_all, AllByRecursion};
ghost use Rattle.sv_base.specs.Seen.{seen_of, row_of};
ghost use Rattle.sv_base.specs.Tree.{Seen};
ghost use Rattle.mms_data.specs.Grammar.{IsSpelled};
ghost use Rattle.output_shapes.specs.Shapes.{Ascend, IsShort, HasData, CanBeCut, HasShortName};
ghost use Rattle.output_shapes.specs.Shapes.{IsShortError, IsShortTermination, IsNode, IsWritable};
ghost use Rattle.output_shapes.specs.Shapes.{CanBeReplied, CanBeSent};
ghost use Rattle.output_pdus.specs.Sendable.{is_seen_writable, are_writable as are_row_writable};
ghost use Rattle.output_pdus.specs.Sendable.{is_result_writable as is_written_result};
ghost use Rattle.output_pdus.specs.Sendable.{are_nodes as are_nodes_below};

use bay_model::{ApplError, Member, Output, Reply, Report, Termination};
use ber_view::whole;
use data_lengths::data_len;
use mms_data::view_data;
use object_model::Model;
use sv_base::{AccessResult, CtlDef, NodeId, Value, rejections};

/// Whether a value has Data at most so deep (ISO 9506-2, Data).
#[cycle(writable)]
pub fn is_writable(value: &Value, depth: u8) -> bool
    ensures { result ≡ is_seen_writable depth (seen_of value.now) }
{
    if depth == 0 {
        return false;
    }
    match value {
        Value::Other => false,
        Value::Time(time) => time.frac < 16777216,
        Value::Struct(values) => are_writable(values.as_slice(), depth - 1),
        _ => true,
    }
}

#[cycle(writable)]
fn are_writable(values: &[Value], depth: u8) -> bool
    ensures { result ≡ are_row_writable depth (row_of values.now) }
{
    for value in values {
        if !is_writable(value, depth) {
            return false;
        }
    }
    true
}

fn is_result_writable(one: &AccessResult) -> bool
    ensures { result ≡ is_written_result one.now }
{
    match one {
        Ok(value) => is_writable(value, 10),
        Err(_) => true,
    }
}

fn are_results_writable(results: &[AccessResult]) -> bool
    ensures { result ≡ list_all is_written_result results.now }
{
    for one in results {
        if !is_result_writable(one) {
            return false;
        }
    }
    true
}

/// Whether these are numbers of nodes, of which there are that many.
fn are_nodes(count: usize, nodes: &[NodeId]) -> bool
    ensures { result ≡ are_nodes_below count nodes.now }
{
    for node in nodes {
        if node.0 as usize >= count {
            return false;
        }
    }
    true
}

/// Whether a reply has a PDU.
fn can_be_replied(model: &Model, reply: &Reply) -> bool
    ensures { IsTrue result → CanBeReplied model.now reply.now }
{
    match reply {
        Reply::TypeOfNode(node) => (node.0 as usize) < model.nodes().len(),
        Reply::Read { results, .. } => are_results_writable(results.as_slice()),
        Reply::SetOf { members, .. } => are_nodes(model.nodes().len(), members.as_slice()),
        Reply::Reject(number) => rejections::UNKNOWN_PDU <= *number
            && *number <= rejections::INVALID_PDU,
        _ => true,
    }
}

/// Whether octets are one Data.
fn is_data(octets: &[u8]) -> bool
    ensures { IsTrue result → (s : Seen) × IsSpelled octets.now s }
{
    match whole(octets) {
        Some(part) => view_data(&part).is_ok(),
        None => false,
    }
}

/// Whether a member can stand in a PDU.
fn is_member(member: &Member) -> bool
    ensures { IsTrue result → IsShort member.now × HasData member.now }
{
    member.reference.len() <= 129 && member.octets.len() <= 500 && is_data(member.octets.as_slice())
}

fn are_members(members: &[Member]) -> bool
    ensures { IsTrue result → AllByRecursion IsShort members.now
        × AllByRecursion HasData members.now }
{
    match members {
        [] => true,
        [member, more @ ..] => is_member(member) && are_members(more),
    }
}

/// Whether numbers ascend, above one and up to another.
fn ascend(last: u32, total: u32, members: &[Member]) -> bool
    ensures { IsTrue result → Ascend last total members.now }
{
    match members {
        [] => true,
        [member, more @ ..] => {
            last < member.number.0
                && member.number.0 <= total
                && ascend(member.number.0, total, more)
        }
    }
}

/// Whether a report has PDUs.
fn can_be_cut(report: &Report) -> bool
    ensures { IsTrue result → CanBeCut report.now }
{
    report.opt_flds.len() == 10
        && 1 <= report.total
        && report.total <= 256
        && report.rpt_id.len() <= 129
        && report.dat_set.len() <= 129
        && ascend(0, report.total, report.members.as_slice())
        && are_members(report.members.as_slice())
}

/// Whether a LastApplError has at most the octets of its type.
fn is_short_error(error: &ApplError) -> bool
    ensures { IsTrue result → IsShortError error.now }
{
    error.object.len() <= 129 && error.or_ident.len() <= 64
}

fn are_short_errors(errors: &[ApplError]) -> bool
    ensures { IsTrue result → All IsShortError errors.now }
{
    for error in errors {
        if !is_short_error(error) {
            return false;
        }
    }
    true
}

/// Whether a LastApplError, if there is one, has at most the octets of its type.
fn is_short_where_there(error: &Option<ApplError>) -> bool
    ensures { IsTrue result → IfSome error.now IsShortError }
{
    match error {
        Some(error) => is_short_error(error),
        None => true,
    }
}

/// Whether the name of a control's Oper has at most the octets of its type.
#[tactic(auto, using(crate::proofs::SendableLaws::short_name))]
fn has_short_name(control: &CtlDef) -> bool
    ensures { IsTrue result → HasShortName control.now }
{
    control.domain.len() <= 129 && control.ln.len() <= 64 && control.path.len() <= 56
}

/// Whether a termination has a PDU: its control is there, and all in it is of its type's octets.
fn can_end(model: &Model, termination: &Termination) -> bool
    ensures { IsTrue result → IsShortTermination model.now termination.now
        × IsWritable (Ok termination.now.oper) }
{
    let Some(control) = model.config().controls.get(termination.control.0 as usize) else {
        return false;
    };
    has_short_name(control)
        && is_short_where_there(&termination.error)
        && is_writable(&termination.oper, 10)
        && data_len(&termination.oper) <= 300
}

/// Whether an output has PDUs.
pub fn can_be_sent(model: &Model, output: &Output) -> bool
    ensures { IsTrue result → CanBeSent model.now output.now }
{
    match output {
        Output::Reply { before, reply, .. } => {
            are_short_errors(before.as_slice()) && can_be_replied(model, reply)
        }
        Output::Report(report) => can_be_cut(report),
        Output::Termination(termination) => can_end(model, termination),
    }
}
