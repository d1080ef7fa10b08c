//! Numbers of parts: a count that no number can hold is refused as out of memory.

ghost use Rattle.std.specs.Prelude.{◌≡◌, ◌+◌, IfOk};

use std::alloc::AllocError;

/// The sum, where it is the number of an attribute or of another part.
pub fn plus(n: u32, more: u32) -> Result<u32, AllocError>
    ensures { IfOk result (λ sum. sum ≡ n + more) }
{
    n.checked_add(more).ok_or(AllocError)
}

/// The count as a number.
pub fn count(n: usize) -> Result<u32, AllocError>
    ensures { IfOk result (λ count. count ≡ n) }
{
    if n > 0xffff_ffff {
        return Err(AllocError);
    }
    Ok(n as u32)
}
