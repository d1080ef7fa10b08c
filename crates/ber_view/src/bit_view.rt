//! The content of a bit string, in place.

ghost use Rattle.std.specs.Prelude.{◌≡◌, ◌<◌, ◌≤◌, ◌^◌, ◌-◌, ◌*◌, ◌/◌, ◌%◌, ◌==◌, ◌↔◌, length, min};
ghost use Rattle.std.specs.Prelude.{slice_get, slice_index, IsTrue};
ghost use Rattle.ber_grammar.specs.Reader.{Gives, Reads};
ghost use Rattle.ber_grammar.specs.Content.{IsBits, IsBitsRefused, bits_of};
ghost use Rattle.ber_grammar.specs.Reading.{bits_at};

use ber_grammar::BerFault;
use std::marker::Model;

/// The bits of a bit string, seen as a list of truth values, the highest bit of the first octet first.
#[derive(Debug, Drop)]
pub struct BitView<'a> {
    unused: u8,
    octets: &'a [u8],
}

impl<'a> Model for BitView<'a> {
    ghost use Rattle.std.specs.Prelude.{◌≡◌, ◌≤◌, List, Bool, length};
    ghost use Rattle.ber_grammar.specs.Content.{bits_of};

    ghost Value = { List Bool };

    ghost view = { λ a. bits_of a.unused a.octets.now };

    ghost invariant = { λ a. (a.unused ≤ 7) × (length a.octets.now ≡ 0 → a.unused ≡ 0) };
}

#[tactic(auto, unfolding(ber_grammar::specs::Reading::bits_at))]
fn read_bits(content: &[u8]) -> Result<BitView<'_>, BerFault>
    ensures { Gives (λ x. x) result (bits_at content.now) }
{
    match content {
        [] => Err(BerFault::BadNumber),
        [unused, octets @ ..] => {
            if *unused > 7 {
                return Err(BerFault::BadNumber);
            }
            if octets.is_empty() && *unused > 0 {
                return Err(BerFault::BadNumber);
            }
            Ok(BitView {
                unused: *unused,
                octets,
            })
        }
    }
}

/// The bits of a bit string (X.690, 8.6), of which the first octet says how many of the last octet's are unused.
///
/// Fails with `BadNumber` where there is no first octet, where more than 7 bits are unused, and where bits are unused
/// of no octet.
pub fn bits(content: &[u8]) -> Result<BitView<'_>, BerFault>
    ensures reads { Reads (λ x. x) result (IsBits content.now) (IsBitsRefused content.now) }
    ensures exact { Gives (λ x. x) result (bits_at content.now) }
{
    read_bits(content)
}

/// The bit of an octet at a place, from 0, the highest first.
fn bit_of(octet: u8, place: usize) -> bool
    requires { place < 8 }
    ensures { result ≡ (octet / 2 ^ (7 - place) % 2 == 1) }
{
    (octet >> (7 - place)) % 2 == 1
}

/// How many bits there are, or `usize::MAX` where there are more.
fn count_of(unused: u8, octets: &[u8]) -> usize
    requires few { unused ≤ 7 }
    requires none { length octets.now ≡ 0 → unused ≡ 0 }
    ensures { result ≡ min (8 * length octets.now - unused) (2 ^ 64 - 1) }
{
    match octets.len().checked_sub(1) {
        None => 0,
        Some(full) => full
            .saturating_mul(8)
            .saturating_add(8 - usize::from(unused)),
    }
}

/// Whether there is a bit at this index.
fn has_bit(unused: u8, octets: &[u8], index: usize) -> bool
    requires { unused ≤ 7 }
    ensures { IsTrue result ↔ (index < 8 * length octets.now - unused) }
{
    let at = index / 8;
    if at + 1 == octets.len() {
        index % 8 < 8 - usize::from(unused)
    } else {
        at < octets.len()
    }
}

fn bit_at(unused: u8, octets: &[u8], index: usize) -> Option<bool>
    requires { unused ≤ 7 }
    ensures { result ≡ slice_get (bits_of unused octets.now) index }
{
    if has_bit(unused, octets, index) {
        Some(bit_of(octets[index / 8], index % 8))
    } else {
        None
    }
}

impl<'a> BitView<'a> {
    /// How many bits there are. No memory holds as many as `usize::MAX`.
    pub fn len(&self) -> usize
        ensures { result ≡ min (length self.now) (2 ^ 64 - 1) }
    {
        count_of(self.unused, self.octets)
    }

    /// Whether there is no bit.
    pub fn is_empty(&self) -> bool
        ensures { IsTrue result ↔ (length self.now ≡ 0) }
    {
        self.octets.is_empty()
    }

    /// The bit at `index`, from 0, or `None` after the last.
    pub fn get(&self, index: usize) -> Option<bool>
        ensures { result ≡ slice_get self.now index }
    {
        bit_at(self.unused, self.octets, index)
    }
}
