//! A source read to its end.

ghost use Rattle.std.specs.Prelude.{◌≡◌, ◌≢◌, ◌≤◌, take, length, IfOk, Err};
ghost use Rattle.std.specs.Prelude.{IfSome};
ghost use Rattle.sv_io.specs.Causes.{Rose};
ghost use Rattle.sv_io.specs.Taken.{TakesAtMost};

use crate::pieces::read_piece;
use crate::traits::{Failed, Source};
use std::alloc::{AllocError, Global};

/// Why a source isn't read to its end.
#[derive(Clone, Copy, Debug, PartialEq, Eq)]
pub enum Unread {
    Memory,
    Read,
}

/// Reads a source to its end, and no more than n octets of it.
pub fn read_whole<S: Source>(alloc: Global, source: &mut S, most: usize) -> Result<Vec<u8>, Unread>
    ensures whole { IfOk result (λ v. IfSome (S.left source.old) (λ b. v.items ≡ take most b)) }
    ensures few { IfOk result (λ v. length v.items ≤ most) }
    ensures taken { TakesAtMost most (S.left source.old) (S.left source.new) }
    ensures read { result ≡ Err Unread.Read → Rose (S.faults source.old) (S.faults source.new) }
    ensures later { S.faults source.old ≤ S.faults source.new }
{
    let mut octets = Vec::new(alloc);
    let mut piece = [0u8; 16384];
    while octets.len() < most {
        let room = (most - octets.len()).min(piece.len());
        let length = match read_piece(source, &mut piece, room) {
            Ok(length) => length,
            Err(Failed) => return Err(Unread::Read),
        };
        if length == 0 {
            return Ok(octets);
        }
        if octets.extend_from_slice(&piece[..length]).is_err() {
            return Err(Unread::Memory);
        }
    }
    Ok(octets)
}
