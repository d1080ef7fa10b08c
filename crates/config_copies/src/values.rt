//! Values again.

ghost use Rattle.std.specs.Prelude.{◌≡◌, IfOk};

use std::alloc::{AllocError, Global};
use sv_base::{Value, Values};

/// The same value again.
#[cycle(copy_values)]
pub fn copy_value(alloc: Global, value: &Value) -> Result<Value, AllocError>
    ensures { IfOk result (λ v. v ≡ value.now) }
{
    match value {
        Value::Bool(b) => Ok(Value::Bool(*b)),
        Value::Int(z) => Ok(Value::Int(*z)),
        Value::Uint(n) => Ok(Value::Uint(*n)),
        Value::Bits(bits) => Ok(Value::Bits(bits.copy(alloc)?)),
        Value::Time(time) => Ok(Value::Time(*time)),
        Value::Stamp(stamp) => Ok(Value::Stamp(*stamp)),
        Value::Text(text) => Ok(Value::Text(text.copy(alloc)?)),
        Value::Octets(octets) => Ok(Value::Octets(octets.copy(alloc)?)),
        Value::Struct(values) => {
            let copies = copy_values(alloc, values.as_slice())?;
            Ok(Value::Struct(Values::from_vec(copies)))
        }
        Value::Other => Ok(Value::Other),
    }
}

#[cycle(copy_values)]
fn copy_values(alloc: Global, values: &[Value]) -> Result<Vec<Value>, AllocError>
    ensures { IfOk result (λ copies. copies.items ≡ values.now) }
{
    let mut copies = Vec::new(alloc);
    for value in values {
        copies.push(copy_value(alloc, value)?)?;
    }
    Ok(copies)
}
