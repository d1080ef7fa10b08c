//! The element of a number, in as few octets as can be.

ghost use Rattle.std.specs.Prelude.{◌≡◌, ◌∷◌, ◌++◌, ◌≤◌, length, OnOk, OnErr};
ghost use Rattle.std.specs.Int.{to_be_bytes, w64};
ghost use Rattle.sv_base.specs.Data.{shortest as shortest_of};
ghost use Rattle.ber_write.specs.Minimal.{octets_of, CanBeTag, uint_octets, int_octets};

use crate::element::put;
use data_lengths::shortest;
use std::alloc::AllocError;

/// The octets of an unsigned number in two's complement.
pub fn unsigned(value: u64) -> [u8; 9]
    ensures { result ≡ 0 ∷ to_be_bytes w64 value }
{
    let [a, b, c, d, e, f, g, h] = value.to_be_bytes();
    [0, a, b, c, d, e, f, g, h]
}

/// The octets of a signed number in two's complement.
fn signed(value: i64) -> [u8; 8]
    ensures { shortest_of result ≡ int_octets value }
{
    value.to_be_bytes()
}

/// Adds an unsigned number as an element with this tag, in as few octets of two's complement as can be, 1 to 9
/// (X.690, 8.3).
///
/// Without memory `out` stays as it was.
#[tactic(auto, using(crate::proofs::SameLaws::uint_is_shortest))]
pub fn put_uint(out: &mut Vec<u8>, tag: u32, value: u64) -> Result<(), AllocError>
    requires { CanBeTag tag }
    ensures ok { OnOk result (out.new.items ≡ out.old.items ++ octets_of tag (uint_octets value)) }
    ensures err { OnErr result (out.new.items ≡ out.old.items) }
{
    put(out, tag, shortest(&unsigned(value)))
}

/// Adds a signed number as an element with this tag, in as few octets of two's complement as can be, 1 to 8
/// (X.690, 8.3).
///
/// Without memory `out` stays as it was.
pub fn put_int(out: &mut Vec<u8>, tag: u32, value: i64) -> Result<(), AllocError>
    requires { CanBeTag tag }
    ensures ok { OnOk result (out.new.items ≡ out.old.items ++ octets_of tag (int_octets value)) }
    ensures err { OnErr result (out.new.items ≡ out.old.items) }
{
    put(out, tag, shortest(&signed(value)))
}

/// How many octets the content that [`put_uint`] writes has.
#[tactic(auto, using(crate::proofs::SameLaws::uint_is_shortest))]
pub fn uint_len(value: u64) -> u32
    ensures count { result ≡ length (uint_octets value) }
    ensures few { result ≤ 9 }
{
    shortest(&unsigned(value)).len() as u32
}

/// How many octets the content that [`put_int`] writes has.
pub fn int_len(value: i64) -> u32
    ensures count { result ≡ length (int_octets value) }
    ensures few { result ≤ 9 }
{
    shortest(&signed(value)).len() as u32
}
