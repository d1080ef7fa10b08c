//! Values that are written, and what they are written to (ISO 9506-2, Write-Request).

ghost use Rattle.std.specs.Prelude.{◌≡◌, map, IfOk};
ghost use Rattle.std.specs.List.{zip};
ghost use Rattle.sv_base.specs.Same.{value_of as value_of_seen};
ghost use Rattle.mms_data.specs.Reading.{in_row};
ghost use Rattle.mms_pdu.specs.Datum.{value_at};
ghost use Rattle.mms_pdu.specs.Variable.{variable_octets};
ghost use Rattle.bay_requests.specs.Requests.{write as write_of};

use crate::names::listed_target_of;
use bay_model::Write;
use mms_data::DataView;
use mms_pdu::{DataList, VariableList};
use object_model::Model;
use std::alloc::{AllocError, Global};
use sv_base::{Value, Values};

/// The value that Data are.
#[tactic(auto, using(crate::proofs::RequestLaws::value_read))]
fn value_of(alloc: Global, datum: &DataView<'_>) -> Result<Value, AllocError>
    ensures { IfOk result (λ v. v ≡ value_of_seen (value_at datum.now)) }
{
    datum.value(alloc)
}

/// The values of a list, in order.
#[tactic(auto, using(crate::proofs::RequestLaws::row_of_values))]
pub(crate) fn values_of(alloc: Global, values: DataList<'_>) -> Result<Values, AllocError>
    ensures { IfOk result (λ r. r ≡ in_row (map value_at values.entry)) }
{
    let mut read = Vec::new(alloc);
    for datum in values {
        let value = value_of(alloc, &datum)?;
        read.push(value)?;
    }
    Ok(Values::from_vec(read))
}

/// The variables of a list, each with the value that is written to it, in order.
pub(crate) fn writes_of(
    alloc: Global,
    model: &Model,
    variables: VariableList<'_>,
    values: DataList<'_>,
) -> Result<Vec<Write>, AllocError>
    ensures { IfOk result (λ ws. ws.items ≡ map (write_of model.now)
        (zip (map variable_octets variables.entry) (map value_at values.entry))) }
{
    let mut writes = Vec::new(alloc);
    for (variable, datum) in variables.zip(values) {
        let target = listed_target_of(alloc, model, &variable)?;
        let value = value_of(alloc, &datum)?;
        writes.push(Write { target, value })?;
    }
    Ok(writes)
}
