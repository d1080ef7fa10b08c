//! Values of their own, of those that are lent.

ghost use Rattle.std.specs.Prelude.{◌≡◌, IfOk};
ghost use Rattle.bay_rooms.specs.Slots.{lent};

use bay_rooms::ValueRef;
use std::alloc::{AllocError, Global};
use sv_base::{Bits, Octs, Value};

/// The same value, of its own.
pub fn owned(alloc: Global, value: ValueRef<'_>) -> Result<Value, AllocError>
    ensures { IfOk result (λ v. v ≡ lent value.entry) }
{
    match value {
        ValueRef::Bool(truth) => Ok(Value::Bool(truth)),
        ValueRef::Int(number) => Ok(Value::Int(number)),
        ValueRef::Uint(number) => Ok(Value::Uint(number)),
        ValueRef::Bits(bits) => Ok(Value::Bits(Bits::from_vec(Vec::from_slice(alloc, bits)?))),
        ValueRef::Time(time) => Ok(Value::Time(time)),
        ValueRef::Stamp(stamp) => Ok(Value::Stamp(stamp)),
        ValueRef::Text(text) => Ok(Value::Text(Octs::from_vec(Vec::from_slice(alloc, text)?))),
        ValueRef::Octets(octets) => {
            Ok(Value::Octets(Octs::from_vec(Vec::from_slice(alloc, octets)?)))
        }
    }
}
