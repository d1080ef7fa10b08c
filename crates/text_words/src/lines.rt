//! The first line of octets.

ghost use Rattle.std.specs.Prelude.{◌≡◌, ◌==◌, ◌∷◌, ◌++◌, false, MatchOption};
ghost use Rattle.std.specs.List.{All};

use memchr::memchr;

/// The octets before the first newline, and those after it; none where there is no newline.
pub fn split_line(octets: &[u8]) -> Option<(&[u8], &[u8])>
    ensures { MatchOption result (All (λ b. (b == 10) ≡ false) octets.now)
        (λ r. (octets.now ≡ r.0.now ++ 10 ∷ r.1.now)
        × All (λ b. (b == 10) ≡ false) r.0.now) }
{
    let at = memchr(b'\n', octets)?;
    Some((&octets[..at], &octets[at + 1..]))
}
