//! The lines that a stack answers of itself.

ghost use Rattle.std.specs.Prelude.{◌≡◌, ◌++◌, length, take, OnOk, OnErr};
ghost use Rattle.stream_lines.specs.Lines.{frame_line, fault_line, released_line, aborted_line};

use crate::number::{push_hex, push_number};
use std::alloc::AllocError;
use sv_base::AssocNo;

/// Writes octets that are sent on the wire.
pub fn push_frame(out: &mut Vec<u8>, a: AssocNo, octets: &[u8]) -> Result<(), AllocError>
    ensures ok { OnOk result (out.new.items ≡ out.old.items ++ frame_line a.0 octets.now) }
    ensures err { OnErr result (take (length out.old.items) out.new.items ≡ out.old.items) }
{
    push_number(out, u64::from(a.0))?;
    out.extend_from_slice(b" frame ")?;
    push_hex(out, octets)?;
    out.push(b'\n')?;
    Ok(())
}

/// Writes a refusal of the stack: its layer, the number of its cause there, and how many octets of the stream it took before.
pub fn push_fault(
    out: &mut Vec<u8>,
    a: AssocNo,
    layer: u8,
    code: u8,
    octets: u64,
) -> Result<(), AllocError>
    ensures ok { OnOk result (out.new.items ≡ out.old.items ++ fault_line a.0 layer code octets) }
    ensures err { OnErr result (take (length out.old.items) out.new.items ≡ out.old.items) }
{
    push_number(out, u64::from(a.0))?;
    out.extend_from_slice(b" fault ")?;
    push_number(out, u64::from(layer))?;
    out.push(b' ')?;
    push_number(out, u64::from(code))?;
    out.extend_from_slice(b" at ")?;
    push_number(out, octets)?;
    out.push(b'\n')?;
    Ok(())
}

/// Writes that an association was released.
pub fn push_released(out: &mut Vec<u8>, a: AssocNo) -> Result<(), AllocError>
    ensures ok { OnOk result (out.new.items ≡ out.old.items ++ released_line a.0) }
    ensures err { OnErr result (take (length out.old.items) out.new.items ≡ out.old.items) }
{
    push_number(out, u64::from(a.0))?;
    out.extend_from_slice(b" released\n")
}

/// Writes that an association was aborted.
pub fn push_aborted(out: &mut Vec<u8>, a: AssocNo) -> Result<(), AllocError>
    ensures ok { OnOk result (out.new.items ≡ out.old.items ++ aborted_line a.0) }
    ensures err { OnErr result (take (length out.old.items) out.new.items ≡ out.old.items) }
{
    push_number(out, u64::from(a.0))?;
    out.extend_from_slice(b" aborted\n")
}
