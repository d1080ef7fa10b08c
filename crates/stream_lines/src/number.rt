//! Numbers and octets, as texts.

ghost use Rattle.std.specs.Prelude.{◌≡◌, ◌++◌, decimal, OnOk, OnErr};
ghost use Rattle.hex.specs.Hex.{encode_lower};

use itoa::Buffer;
use std::alloc::AllocError;

/// Writes a number in decimal. Without memory `out` stays as it was.
pub fn push_number(out: &mut Vec<u8>, n: u64) -> Result<(), AllocError>
    ensures ok { OnOk result (out.new.items ≡ out.old.items ++ decimal n) }
    ensures err { OnErr result (out.new.items ≡ out.old.items) }
{
    out.extend_from_slice(Buffer::new().format(n).as_bytes())
}

/// Writes octets in lower-case hexadecimal. Without memory `out` stays as it was.
pub fn push_hex(out: &mut Vec<u8>, octets: &[u8]) -> Result<(), AllocError>
    ensures ok { OnOk result (out.new.items ≡ out.old.items ++ encode_lower octets.now) }
    ensures err { OnErr result (out.new.items ≡ out.old.items) }
{
    let start = out.len();
    let Some(end) = start.checked_add(octets.len().saturating_mul(2)) else {
        return Err(AllocError);
    };
    out.resize(end, 0)?;
    hex::encode_to_slice(octets, &mut out[start..]).unwrap();
    Ok(())
}
