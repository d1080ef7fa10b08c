//! How large the Data of a type can be.

ghost use Rattle.std.specs.Prelude.{◌≡◌, min};
ghost use Rattle.sv_base.specs.Fields.{fields_of};
ghost use Rattle.bay_model.specs.Places.{largest as largest_of, largest_fields};

use data_lengths::element_len;
use sv_base::{Part1, TypeOf};

/// How many octets the largest Data of a type has (ISO 9506-2, Data), and 4294967295 where there are more.
#[cycle(largest)]
pub fn largest(kind: &TypeOf) -> u32
    ensures { result ≡ min (largest_of kind.now) 4294967295 }
{
    match kind {
        TypeOf::Bool => 3,
        TypeOf::Int(width) => 2 + *width as u32 / 8,
        TypeOf::Uint(width) => 3 + *width as u32 / 8,
        TypeOf::Bits(len) => element_len(1 + (*len as u32 + 7) / 8),
        TypeOf::Time => 10,
        TypeOf::Stamp => 8,
        TypeOf::Text(most) => element_len(*most as u32),
        TypeOf::Octets(most) => element_len(*most as u32),
        TypeOf::EntryId => 10,
        TypeOf::Struct(parts) => element_len(largest_parts(parts.as_slice())),
    }
}

/// How many octets the largest Data of the parts have one after another, and 4294967295 where there are more.
#[cycle(largest)]
fn largest_parts(parts: &[Part1]) -> u32
    ensures { result ≡ min (largest_fields (fields_of parts.now)) 4294967295 }
{
    let mut sum = 0u32;
    for part in parts {
        sum = sum.saturating_add(largest(&part.kind));
    }
    sum
}
