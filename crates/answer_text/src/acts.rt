//! The lines of controls that act.

ghost use Rattle.std.specs.Prelude.{◌≡◌, ◌++◌, length, take, OnOk, OnErr, slice_get, IfOk};
ghost use Rattle.sv_base.specs.Data.{data_of};
ghost use Rattle.bay_model.specs.Configured.{control_defined};
ghost use Rattle.answer_text.specs.Texts.{act_line, act_lines, control_text};

use bay_model::Act;
use mms_data::write_data;
use object_model::Model;
use output_pdus::is_writable;
use std::alloc::{AllocError, Global};
use stream_lines::{push_hex, push_number};
use sv_base::{CtlDef, CtlNo, Value};

/// The Data of a value. One that has none, which is no ctlVal, fails as out of memory does.
fn data(alloc: Global, value: &Value) -> Result<Vec<u8>, AllocError>
    ensures { IfOk result (λ v. v.items ≡ data_of value.now) }
{
    if !is_writable(value, 10) {
        return Err(AllocError);
    }
    let mut octets = Vec::new(alloc);
    write_data(value, &mut octets)?;
    Ok(octets)
}

/// Writes the reference `LD/LN$CO$DO` of a control's line.
fn push_reference(out: &mut Vec<u8>, line: &CtlDef) -> Result<(), AllocError>
    ensures ok { OnOk result (out.new.items ≡ out.old.items
        ++ (control_defined line.now).reference) }
    ensures err { OnErr result (take (length out.old.items) out.new.items ≡ out.old.items) }
{
    out.extend_from_slice(line.domain.as_slice())?;
    out.extend_from_slice(b"/")?;
    out.extend_from_slice(line.ln.as_slice())?;
    out.extend_from_slice(b"$CO$")?;
    out.extend_from_slice(line.path.as_slice())
}

/// Writes the reference of a control.
fn push_control(out: &mut Vec<u8>, model: &Model, control: CtlNo) -> Result<(), AllocError>
    ensures ok { OnOk result (out.new.items ≡ out.old.items ++ control_text
        (slice_get model.now.controls control.0)) }
    ensures err { OnErr result (take (length out.old.items) out.new.items ≡ out.old.items) }
{
    match model.config().controls.get(control.0 as usize) {
        Some(line) => push_reference(out, line),
        None => Ok(()),
    }
}

/// Writes an act.
fn push_act(alloc: Global, out: &mut Vec<u8>, model: &Model, act: &Act) -> Result<(), AllocError>
    ensures ok { OnOk result (out.new.items ≡ out.old.items ++ act_line model.now act.now) }
    ensures err { OnErr result (take (length out.old.items) out.new.items ≡ out.old.items) }
{
    let value = data(alloc, &act.value)?;
    out.extend_from_slice(b"act ")?;
    push_control(out, model, act.control)?;
    out.push(b' ')?;
    push_hex(out, value.as_slice())?;
    out.extend_from_slice(b" by ")?;
    push_number(out, u64::from(act.by.0))?;
    out.push(b'\n')?;
    Ok(())
}

/// Writes acts, in order.
pub fn push_acts(
    alloc: Global,
    out: &mut Vec<u8>,
    model: &Model,
    acts: &[Act],
) -> Result<(), AllocError>
    ensures ok { OnOk result (out.new.items ≡ out.old.items ++ act_lines model.now acts.now) }
    ensures err { OnErr result (take (length out.old.items) out.new.items ≡ out.old.items) }
{
    for act in acts {
        push_act(alloc, out, model, act)?;
    }
    Ok(())
}
