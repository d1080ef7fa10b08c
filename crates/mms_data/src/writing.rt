//! Data, written.

ghost use Rattle.std.specs.Prelude.{◌≡◌, ◌+◌, ◌<◌, ◌≤◌, ◌-◌, ◌*◌, ◌/◌, ◌%◌, ◌^◌, ◌∷◌, ◌++◌, []};
ghost use Rattle.std.specs.Prelude.{length, take, min, OnOk, OnErr};
ghost use Rattle.std.specs.Int.{to_be_bytes, w16, w32};
ghost use Rattle.ber_write.specs.Minimal.{CanBeTag};
ghost use Rattle.sv_base.specs.Tree.{int as int_of, uint as uint_of, bits as bits_of};
ghost use Rattle.sv_base.specs.Seen.{row_of, seen_of};
ghost use Rattle.sv_base.specs.Data.{element, data_plain, data_of, data_row};
ghost use Rattle.sv_base.specs.Depth.{depth, HasNoOther, RowHasNoOther};
ghost use Rattle.mms_data.specs.Writable.{Fits, FitsRow, SeenHasFractions};

use crate::tags;
use ber_write::{put, put_bits, put_head, put_int, put_uint};
use data_lengths::{data_len, row_len};
use std::alloc::AllocError;
use sv_base::{Stamp, Utc, Value};

/// Adds an element whose tag is one octet.
fn put_element(out: &mut Vec<u8>, tag: u32, content: &[u8]) -> Result<(), AllocError>
    requires tag { CanBeTag tag }
    requires one_octet { tag < 256 }
    requires len { length content.now < 2 ^ 32 }
    ensures ok { OnOk result (out.new.items ≡ out.old.items ++ element tag content.now) }
    ensures err { OnErr result (out.new.items ≡ out.old.items) }
{
    put(out, tag, content)
}

fn put_bit_string(out: &mut Vec<u8>, bits: &[bool]) -> Result<(), AllocError>
    requires { length bits.now ≤ 8 * (2 ^ 32 - 2) }
    ensures ok { OnOk result (out.new.items ≡ out.old.items ++ data_plain (bits_of bits.now)) }
    ensures err { OnErr result (out.new.items ≡ out.old.items) }
{
    put_bits(out, tags::BIT_STRING, bits)
}

fn put_integer(out: &mut Vec<u8>, value: i64) -> Result<(), AllocError>
    ensures ok { OnOk result (out.new.items ≡ out.old.items ++ data_plain (int_of value)) }
    ensures err { OnErr result (out.new.items ≡ out.old.items) }
{
    put_int(out, tags::INTEGER, value)
}

fn put_unsigned(out: &mut Vec<u8>, value: u64) -> Result<(), AllocError>
    ensures ok { OnOk result (out.new.items ≡ out.old.items ++ data_plain (uint_of value)) }
    ensures err { OnErr result (out.new.items ≡ out.old.items) }
{
    put_uint(out, tags::UNSIGNED, value)
}

/// A binary time (ISO 9506-2, TimeOfDay).
pub fn stamp_octets(stamp: Stamp) -> [u8; 6]
    ensures { result ≡ to_be_bytes w32 stamp.ms ++ to_be_bytes w16 stamp.days }
{
    let [a, b, c, d] = stamp.ms.to_be_bytes();
    let [e, f] = stamp.days.to_be_bytes();
    [a, b, c, d, e, f]
}

/// A UTC time (ISO 9506-2, UtcTime).
pub fn time_octets(time: Utc) -> [u8; 8]
    requires { time.frac < 2 ^ 24 }
    ensures { result ≡ to_be_bytes w32 time.secs ++ ((time.frac / 65536) ∷ (time.frac / 256 % 256)
        ∷ (time.frac % 256) ∷ time.quality ∷ []) }
{
    let [a, b, c, d] = time.secs.to_be_bytes();
    let high = (time.frac / 65536) as u8;
    let middle = (time.frac / 256 % 256) as u8;
    let low = (time.frac % 256) as u8;
    [a, b, c, d, high, middle, low, time.quality]
}

#[cycle(put)]
fn put_value(value: &Value, out: &mut Vec<u8>) -> Result<(), AllocError>
    requires no_other { HasNoOther value.now }
    requires fits { Fits value.now }
    ensures ok { OnOk result (out.new.items ≡ out.old.items ++ data_of value.now) }
    ensures err { OnErr result (take (length out.old.items) out.new.items ≡ out.old.items) }
{
    match value {
        Value::Bool(b) => put_element(out, tags::BOOLEAN, if *b { &[0xff] } else { &[0] }),
        Value::Bits(bits) => put_bit_string(out, bits.as_slice()),
        Value::Int(z) => put_integer(out, *z),
        Value::Uint(n) => put_unsigned(out, *n),
        Value::Octets(octets) => put_element(out, tags::OCTET_STRING, octets.as_slice()),
        Value::Text(octets) => put_element(out, tags::VISIBLE_STRING, octets.as_slice()),
        Value::Stamp(stamp) => put_element(out, tags::BINARY_TIME, &stamp_octets(*stamp)),
        Value::Time(time) => put_element(out, tags::UTC_TIME, &time_octets(*time)),
        Value::Struct(values) => {
            let values = values.as_slice();
            put_head(out, tags::STRUCTURE, row_len(values))?;
            put_row(values, out)
        }
        Value::Other => unreachable!(),
    }
}

#[cycle(put)]
fn put_row(values: &[Value], out: &mut Vec<u8>) -> Result<(), AllocError>
    requires no_other { RowHasNoOther (row_of values.now) }
    requires fits { FitsRow (row_of values.now) }
    ensures ok { OnOk result (out.new.items ≡ out.old.items ++ data_row (row_of values.now)) }
    ensures err { OnErr result (take (length out.old.items) out.new.items ≡ out.old.items) }
{
    for value in values {
        put_value(value, out)?;
    }
    Ok(())
}

/// Adds the Data of a value in its one minimal spelling (ISO 9506-2, Data; X.690, 8.1.3 and 8.3.2). Unused bits of a bit
/// string are written as 0, true as FF. The value has no `Other` in it, is at most ten deep, and a fraction of a second
/// in it is below 2^24.
///
/// Without memory `out` stays as it was; so it does where the Data has 4294967295 octets or more.
pub fn write_data(value: &Value, out: &mut Vec<u8>) -> Result<(), AllocError>
    requires no_other { HasNoOther value.now }
    requires depth { depth value.now ≤ 10 }
    requires fractions { SeenHasFractions (seen_of value.now) }
    ensures ok { OnOk result (out.new.items ≡ out.old.items ++ data_of value.now) }
    ensures err { OnErr result (out.new.items ≡ out.old.items) }
{
    if data_len(value) == u32::MAX {
        return Err(AllocError);
    }
    let before = out.len();
    let done = put_value(value, out);
    if done.is_err() {
        out.truncate(before);
    }
    done
}
