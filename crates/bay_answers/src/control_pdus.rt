//! What is sent of controls: why a command was refused, before the reply to it, and how one ended (IEC 61850-8-1, LastApplError and
//! CommandTermination).

ghost use Rattle.std.specs.Prelude.{◌≡◌, ◌≤◌, ◌<◌, ◌++◌, ◌^◌, length, OnOk, IfOk};
ghost use Rattle.sv_base.specs.Data.{data_of};
ghost use Rattle.output_shapes.specs.Shapes.{oper_item as item_of, IsShortTermination};
ghost use Rattle.output_shapes.specs.Shapes.{HasShortName, IsWritable};
ghost use Rattle.bay_answers.specs.ControlPdus.{error_variable, origin_octets, error_parts};
ghost use Rattle.bay_answers.specs.ControlPdus.{error_data as data_of_error};
ghost use Rattle.bay_answers.specs.ControlPdus.{oper_variable, error_pdu as pdu_of_error};
ghost use Rattle.bay_answers.specs.ControlPdus.{termination_of};
ghost use Rattle.bay_answers.specs.ControlPdus.{termination_pdu as pdu_of_termination, report_of};
ghost use Rattle.std.specs.Prelude.{Ok};

use crate::control_errors;
use crate::replies_variables::{add_variable, domain_octets};
use bay_model::{ApplError, Termination};
use ber_write::{add, enclosed, put_int, put_uint};
use mms_data::{tags as data_tags, write_data};
use mms_elements::tags as pdu_tags;
use mms_pdu::write_report;
use object_model::Model;
use std::alloc::{AllocError, Global};
use sv_base::{CtlDef, CtlService, Octs, Value};

/// Adds the variable LastApplError.
fn add_error_variable(alloc: Global, out: &mut Vec<u8>) -> Result<(), AllocError>
    ensures { OnOk result (out.new.items ≡ out.old.items ++ error_variable) }
{
    let name = enclosed(alloc, pdu_tags::VMD_SPECIFIC, b"LastApplError")?;
    add_variable(alloc, out, name.as_slice())
}

/// Who gave a command.
fn origin(alloc: Global, error: &ApplError) -> Result<Vec<u8>, AllocError>
    ensures { IfOk result (λ v. v.items ≡ origin_octets error.now) }
{
    let mut out = Vec::new(alloc);
    put_int(&mut out, data_tags::INTEGER, error.or_cat)?;
    add(&mut out, data_tags::OCTET_STRING, error.or_ident.as_slice())?;
    Ok(out)
}

/// The parts of a LastApplError.
fn parts(alloc: Global, error: &ApplError) -> Result<Vec<u8>, AllocError>
    ensures { IfOk result (λ v. v.items ≡ error_parts error.now) }
{
    let origin = origin(alloc, error)?;
    let mut out = Vec::new(alloc);
    add(&mut out, data_tags::VISIBLE_STRING, error.object.as_slice())?;
    put_int(&mut out, data_tags::INTEGER, control_errors::UNKNOWN)?;
    add(&mut out, data_tags::STRUCTURE, origin.as_slice())?;
    put_uint(&mut out, data_tags::UNSIGNED, u64::from(error.ctl_num))?;
    put_uint(&mut out, data_tags::INTEGER, u64::from(error.cause))?;
    Ok(out)
}

/// Adds the value of a LastApplError.
#[tactic(auto, unfolding(crate::specs::ControlPdus::error_data))]
fn add_error_data(alloc: Global, out: &mut Vec<u8>, error: &ApplError) -> Result<(), AllocError>
    ensures { OnOk result (out.new.items ≡ out.old.items ++ data_of_error error.now) }
{
    let parts = parts(alloc, error)?;
    add(out, data_tags::STRUCTURE, parts.as_slice())
}

/// The item of a control's Oper.
fn oper_item(alloc: Global, control: &CtlDef) -> Result<Vec<u8>, AllocError>
    ensures { IfOk result (λ v. v.items ≡ item_of control.now) }
{
    let mut item = Vec::from_slice(alloc, control.ln.as_slice())?;
    item.extend_from_slice(b"$CO$")?;
    item.extend_from_slice(control.path.as_slice())?;
    item.push(b'$')?;
    item.extend_from_slice(CtlService::Oper.name())?;
    Ok(item)
}

/// Adds the variable Oper of a control.
fn add_oper_variable(alloc: Global, out: &mut Vec<u8>, control: &CtlDef) -> Result<(), AllocError>
    ensures { OnOk result (out.new.items ≡ out.old.items ++ oper_variable control.now) }
{
    let item = oper_item(alloc, control)?;
    let name = domain_octets(alloc, control.domain.as_slice(), item.as_slice())?;
    add_variable(alloc, out, name.as_slice())
}

/// An information report of a list of variables and their values.
fn reported(alloc: Global, variables: &[u8], values: &[u8]) -> Result<Octs, AllocError>
    requires { length variables.now < 2 ^ 32 }
    ensures { IfOk result (λ o. o ≡ report_of variables.now values.now) }
{
    let list = enclosed(alloc, pdu_tags::LIST_OF_VARIABLE, variables)?;
    write_report(alloc, list.as_slice(), values)
}

/// A LastApplError before a reply.
pub(crate) fn error_pdu(alloc: Global, error: &ApplError) -> Result<Octs, AllocError>
    ensures { IfOk result (λ o. o ≡ pdu_of_error error.now) }
{
    let mut variables = Vec::new(alloc);
    add_error_variable(alloc, &mut variables)?;
    let mut values = Vec::new(alloc);
    add_error_data(alloc, &mut values, error)?;
    reported(alloc, variables.as_slice(), values.as_slice())
}

/// The end of a command that came to a good end: Oper with its value.
fn good_end(alloc: Global, control: &CtlDef, oper: &Value) -> Result<Octs, AllocError>
    requires name { HasShortName control.now }
    requires oper { IsWritable (Ok oper.now) }
    ensures { IfOk result (λ o. o ≡ report_of (oper_variable control.now) (data_of oper.now)) }
{
    let mut variables = Vec::new(alloc);
    add_oper_variable(alloc, &mut variables, control)?;
    let mut values = Vec::new(alloc);
    write_data(oper, &mut values)?;
    reported(alloc, variables.as_slice(), values.as_slice())
}

/// The end of a command that came to no good end: LastApplError and Oper, each with its value.
fn bad_end(
    alloc: Global,
    control: &CtlDef,
    oper: &Value,
    error: &ApplError,
) -> Result<Octs, AllocError>
    requires name { HasShortName control.now }
    requires oper { IsWritable (Ok oper.now) }
    ensures { IfOk result (λ o. o ≡ report_of (error_variable ++ oper_variable control.now)
        (data_of_error error.now ++ data_of oper.now)) }
{
    let mut variables = Vec::new(alloc);
    add_error_variable(alloc, &mut variables)?;
    add_oper_variable(alloc, &mut variables, control)?;
    let mut values = Vec::new(alloc);
    add_error_data(alloc, &mut values, error)?;
    write_data(oper, &mut values)?;
    reported(alloc, variables.as_slice(), values.as_slice())
}

/// The end of a command of a control that has this line.
fn ended(alloc: Global, control: &CtlDef, termination: &Termination) -> Result<Octs, AllocError>
    requires name { HasShortName control.now }
    requires oper { IsWritable (Ok termination.now.oper) }
    ensures { IfOk result (λ o. o
        ≡ termination_of control.now termination.now termination.now.error) }
{
    match &termination.error {
        None => good_end(alloc, control, &termination.oper),
        Some(error) => bad_end(alloc, control, &termination.oper, error),
    }
}

/// The end of a command.
pub(crate) fn termination_pdu(
    alloc: Global,
    model: &Model,
    termination: &Termination,
) -> Result<Octs, AllocError>
    requires short { IsShortTermination model.now termination.now }
    requires oper { IsWritable (Ok termination.now.oper) }
    ensures { IfOk result (λ o. o ≡ pdu_of_termination model.now termination.now) }
{
    match model.config().controls.get(termination.control.0 as usize) {
        Some(control) => ended(alloc, control, termination),
        None => Ok(Octs::from_vec(Vec::new(alloc))),
    }
}
