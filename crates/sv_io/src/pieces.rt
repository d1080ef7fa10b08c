//! Octets of a source, a piece at a time.

ghost use Rattle.std.specs.Prelude.{◌≡◌, ◌≤◌, ◌<◌, length, take, IfOk};
ghost use Rattle.std.specs.Io.KnownBytes.{Consumes, IsAtEnd};
ghost use Rattle.sv_io.specs.Causes.{HasCause};
ghost use Rattle.sv_io.specs.Taken.{TakesAtMost};

use crate::traits::{Failed, Source};

/// Reads at most n octets to the front of the buffer; none where the source has ended.
pub fn read_piece<S: Source>(source: &mut S, buf: &mut [u8], room: usize) -> Result<usize, Failed>
    requires some { 0 < room }
    requires fits { room ≤ length buf.old }
    ensures bound { IfOk result (λ n. n ≤ room) }
    ensures bytes { IfOk result (λ n. Consumes (S.left source.old) (S.left source.new)
        (take n buf.new) × (n ≡ 0 → IsAtEnd (S.left source.new))) }
    ensures taken { TakesAtMost room (S.left source.old) (S.left source.new) }
    ensures cause { HasCause (S.faults source.old) (S.faults source.new) result }
{
    source.read(&mut buf[..room])
}
