//! The value of a type, out of the values of its leaves.

ghost use Rattle.std.specs.Prelude.{◌≡◌, drop, slice_index_or, IfOk, OnOk};
ghost use Rattle.sv_base.specs.Fields.{shape_of, fields_of};
ghost use Rattle.sv_base.specs.Seen.{seen_of, row_of};
ghost use Rattle.sv_base.specs.declared.value.Value.TheVariants as kinds;
ghost use Rattle.value_store.specs.Members.{leaves, leaves_in, value_with, row_with};

use std::alloc::{AllocError, Global};
use std::collections::VecDeque;
use sv_base::{Part1, TypeOf, Value, Values};

/// The first of the values.
fn first(rest: &mut VecDeque<Value>) -> Value
    ensures value { result ≡ slice_index_or rest.old.items 0 kinds.Other }
    ensures rest { rest.new.items ≡ drop 1 rest.old.items }
{
    match rest.pop_front() {
        Some(value) => value,
        None => Value::Other,
    }
}

/// The value of a type with the first of the values, which it takes.
#[cycle(build)]
pub fn build(alloc: Global, kind: &TypeOf, rest: &mut VecDeque<Value>) -> Result<Value, AllocError>
    ensures value { IfOk result (λ v. seen_of v ≡ value_with (shape_of kind.now) rest.old.items) }
    ensures rest { OnOk result (rest.new.items ≡ drop (leaves (shape_of kind.now)) rest.old.items) }
{
    match kind {
        TypeOf::Struct(parts) => {
            let values = build_parts(alloc, parts.as_slice(), rest)?;
            Ok(Value::Struct(Values::from_vec(values)))
        }
        _ => Ok(first(rest)),
    }
}

/// The values of the parts of a structure, in their order.
#[cycle(build)]
fn build_parts(
    alloc: Global,
    parts: &[Part1],
    rest: &mut VecDeque<Value>,
) -> Result<Vec<Value>, AllocError>
    ensures value { IfOk result (λ vs. row_of vs.items ≡ row_with
        (fields_of parts.now) rest.old.items) }
    ensures rest { OnOk result
        (rest.new.items ≡ drop (leaves_in (fields_of parts.now)) rest.old.items) }
{
    let mut values = Vec::new(alloc);
    for part in parts {
        values.push(build(alloc, &part.kind, rest)?)?;
    }
    Ok(values)
}
