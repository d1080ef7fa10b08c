//! The content of a number and of a visible string.

ghost use Rattle.std.specs.Prelude.{◌≡◌, ◌<◌, ◌^◌, ◌≤◌, ◌+◌, ℕ, List, length, pos, negsuc, IfOk};
ghost use Rattle.ber_grammar.specs.Reader.{Gives, Reads};
ghost use Rattle.ber_grammar.specs.Content.{IsText, IsTextRefused, IsUint, IsUintRefused, IsInt};
ghost use Rattle.ber_grammar.specs.Content.{IsIntRefused};
ghost use Rattle.ber_grammar.specs.Octets.{big_endian};
ghost use Rattle.ber_grammar.specs.Place.{IsSliceAt};
ghost use Rattle.ber_grammar.specs.Reading.{lack, positive, negative, uint_at, int_at, text_at};

use ber_grammar::BerFault;

/// The octets of a visible string (X.690, 8.23), which are `content` itself.
///
/// Fails with `BadText` where an octet is outside 0x20 to 0x7e.
#[tactic(auto, unfolding(ber_grammar::specs::Reading::text_at))]
pub fn text(content: &[u8]) -> Result<&[u8], BerFault>
    ensures reads { Reads (λ x. x.now) result (IsText content.now) (IsTextRefused content.now) }
    ensures exact { Gives (λ x. x.now) result (text_at content.now) }
    ensures places { IfOk result (λ x. IsSliceAt content.entry 0 x) }
{
    for b in content {
        if *b < 0x20 || *b > 0x7e {
            return Err(BerFault::BadText);
        }
    }
    Ok(content)
}

/// At most eight octets as one number.
fn unsigned_of(bytes: &[u8]) -> u64
    requires { length bytes.now ≤ 8 }
    ensures { result ≡ big_endian bytes.now }
{
    let mut n = 0u64;
    for b in bytes {
        n = n * 256 + u64::from(*b);
    }
    n
}

/// What at most eight octets lack to the greatest number of as many.
fn lack_of(bytes: &[u8]) -> u64
    requires { length bytes.now ≤ 8 }
    ensures { result ≡ lack bytes.now }
{
    let mut n = 0u64;
    for b in bytes {
        n = n * 256 + u64::from(255 - *b);
    }
    n
}

#[tactic(auto, unfolding(ber_grammar::specs::Reading::uint_at))]
fn read_uint(content: &[u8]) -> Result<u64, BerFault>
    ensures { Gives (λ x. x) result (uint_at content.now) }
{
    match content {
        [] => Err(BerFault::BadNumber),
        [0, rest @ ..] => {
            if rest.len() > 8 {
                return Err(BerFault::BadNumber);
            }
            Ok(unsigned_of(rest))
        }
        [first, ..] => {
            if *first >= 128 {
                return Err(BerFault::BadNumber);
            }
            if content.len() > 8 {
                return Err(BerFault::BadNumber);
            }
            Ok(unsigned_of(content))
        }
    }
}

/// An unsigned number of at most 64 bits, from one to nine octets in two's complement (X.690, 8.3).
///
/// Fails with `BadNumber` at no octet, at more than nine, and where the number is negative or above
/// 18446744073709551615.
pub fn uint(content: &[u8]) -> Result<u64, BerFault>
    ensures reads { Reads (λ x. x) result (IsUint content.now) (IsUintRefused content.now) }
    ensures exact { Gives (λ x. x) result (uint_at content.now) }
{
    read_uint(content)
}

fn positive_of(n: u64) -> Result<i64, BerFault>
    ensures { Gives (λ x. x) result (positive n) }
{
    if n < 1 << 63 {
        return Ok(n as i64);
    }
    Err(BerFault::BadNumber)
}

fn negative_of(n: u64) -> Result<i64, BerFault>
    ensures { Gives (λ x. x) result (negative n) }
{
    if n < 1 << 63 {
        return Ok(-1 - n as i64);
    }
    Err(BerFault::BadNumber)
}

#[tactic(auto, unfolding(ber_grammar::specs::Reading::int_at))]
fn read_int(content: &[u8]) -> Result<i64, BerFault>
    ensures { Gives (λ x. x) result (int_at content.now) }
{
    match content {
        [] => Err(BerFault::BadNumber),
        [255, rest @ ..] => {
            if rest.len() > 8 {
                return Err(BerFault::BadNumber);
            }
            negative_of(lack_of(rest))
        }
        [first, ..] => {
            if *first < 128 {
                let n = uint(content)?;
                return positive_of(n);
            }
            if content.len() > 8 {
                return Err(BerFault::BadNumber);
            }
            negative_of(lack_of(content))
        }
    }
}

/// A signed number of at most 64 bits, from one to nine octets in two's complement (X.690, 8.3).
///
/// Fails with `BadNumber` at no octet, at more than nine, and where the number is no `i64`.
pub fn int(content: &[u8]) -> Result<i64, BerFault>
    ensures reads { Reads (λ x. x) result (IsInt content.now) (IsIntRefused content.now) }
    ensures exact { Gives (λ x. x) result (int_at content.now) }
{
    read_int(content)
}
