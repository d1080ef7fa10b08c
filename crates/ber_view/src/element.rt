//! One element: its tag, its length and its content (ITU-T X.690, 8.1).

ghost use Rattle.std.specs.Prelude.{◌≡◌, ℕ, ◌+◌, ◌<◌, ◌^◌, ◌≤◌, List, length, IfOk, Ok};
ghost use Rattle.ber_grammar.specs.Octets.{big_endian};
ghost use Rattle.ber_grammar.specs.Element.{Element, Begins, IsRefused};
ghost use Rattle.ber_grammar.specs.Reader.{Gives, Reads};
ghost use Rattle.ber_grammar.specs.Reading.{tag_at, second_at, third_at, length_at, number_at};
ghost use Rattle.ber_grammar.specs.Reading.{first_at};
ghost use Rattle.ber_grammar.specs.Place.{IsEndOf, IsSliceAt};
ghost use Rattle.ber_view.specs.View.{element};

use ber_grammar::BerFault;

/// One element (X.690, 8.1): tag, length and content.
#[derive(Clone, Copy, Debug)]
pub struct Tlv<'a> {
    /// The octets of the tag, one to three, as one big-endian number.
    pub tag: u32,
    /// How many octets stand before the content.
    pub head: usize,
    /// The octets of the content, a slice of the input.
    pub content: &'a [u8],
}

/// The last octet of a tag after two.
fn read_third(a: u8, b: u8, bytes: &[u8]) -> Result<(u32, &[u8]), BerFault>
    ensures exact { Gives (λ x. (x.0, x.1.now)) result (third_at a b bytes.now) }
    ensures place { IfOk result (λ x. IsEndOf x.1 bytes.entry) }
{
    match bytes {
        [] => Err(BerFault::Short),
        [c, rest @ ..] => {
            if *c >= 128 {
                return Err(BerFault::BadTag);
            }
            Ok((
                (u32::from(a) * 256 + u32::from(b)) * 256 + u32::from(*c),
                rest,
            ))
        }
    }
}

/// The second octet of a tag, and what follows.
fn read_second(a: u8, bytes: &[u8]) -> Result<(u32, &[u8]), BerFault>
    ensures exact { Gives (λ x. (x.0, x.1.now)) result (second_at a bytes.now) }
    ensures place { IfOk result (λ x. IsEndOf x.1 bytes.entry) }
{
    match bytes {
        [] => Err(BerFault::Short),
        [b, rest @ ..] => {
            if *b >= 128 {
                return read_third(a, *b, rest);
            }
            Ok((u32::from(a) * 256 + u32::from(*b), rest))
        }
    }
}

/// A tag, and the octets after it.
#[tactic(auto, unfolding(ber_grammar::specs::Reading::tag_at))]
fn read_tag(bytes: &[u8]) -> Result<(u32, &[u8]), BerFault>
    ensures exact { Gives (λ x. (x.0, x.1.now)) result (tag_at bytes.now) }
    ensures place { IfOk result (λ x. IsEndOf x.1 bytes.entry) }
{
    match bytes {
        [] => Err(BerFault::Short),
        [a, rest @ ..] => {
            if *a % 32 == 31 {
                return read_second(*a, rest);
            }
            Ok((u32::from(*a), rest))
        }
    }
}

/// At most four octets as one number.
fn big_endian_of(bytes: &[u8]) -> u32
    requires { length bytes.now ≤ 4 }
    ensures { result ≡ big_endian bytes.now }
{
    let mut n = 0u32;
    for b in bytes {
        n = n * 256 + u32::from(*b);
    }
    n
}

/// A length in `count` octets, and the octets after them.
#[tactic(auto, unfolding(ber_grammar::specs::Reading::number_at))]
fn read_long_length(count: usize, bytes: &[u8]) -> Result<(u32, &[u8]), BerFault>
    requires { count ≤ 4 }
    ensures exact { Gives (λ x. (x.0, x.1.now)) result (number_at count bytes.now) }
    ensures place { IfOk result (λ x. IsEndOf x.1 bytes.entry) }
{
    if bytes.len() < count {
        return Err(BerFault::Short);
    }
    Ok((big_endian_of(&bytes[..count]), &bytes[count..]))
}

/// A length, and the octets after it.
#[tactic(auto, unfolding(ber_grammar::specs::Reading::length_at))]
fn read_length(bytes: &[u8]) -> Result<(u32, &[u8]), BerFault>
    ensures exact { Gives (λ x. (x.0, x.1.now)) result (length_at bytes.now) }
    ensures place { IfOk result (λ x. IsEndOf x.1 bytes.entry) }
{
    match bytes {
        [] => Err(BerFault::Short),
        [a, rest @ ..] => {
            if *a < 128 {
                return Ok((u32::from(*a), rest));
            }
            if *a == 128 {
                return Err(BerFault::Indefinite);
            }
            if *a > 132 {
                return Err(BerFault::LongLength);
            }
            read_long_length(usize::from(*a - 128), rest)
        }
    }
}

#[tactic(auto, unfolding(ber_grammar::specs::Reading::first_at))]
fn read_first(bytes: &[u8]) -> Result<(Tlv<'_>, &[u8]), BerFault>
    ensures exact { Gives (λ x. (element x.0, x.1.now)) result (first_at bytes.now) }
    ensures rest { IfOk result (λ x. IsEndOf x.1 bytes.entry) }
    ensures content { IfOk result (λ x. (x.0.content.ref_ptr.0 ≡ bytes.entry.ref_ptr.0)
        × (x.0.content.ref_ptr.1 ≡ bytes.entry.ref_ptr.1 + x.0.head)) }
{
    let (tag, after) = read_tag(bytes)?;
    let (len, after) = read_length(after)?;
    let len = len as usize;
    if after.len() < len {
        return Err(BerFault::Short);
    }
    let head = bytes.len() - after.len();
    let content = &after[..len];
    Ok((Tlv { tag, head, content }, &after[len..]))
}

/// The first element, and the octets after it, both slices of `bytes`.
///
/// A tag has at most three octets, and a length at most five in all. Both may be longer than needed.
///
/// Fails at the first octet at which no element goes on: with `Short` where `bytes` end inside an element, `LongLength`
/// where more than four octets of a length follow, `Indefinite` at the length 0x80, `BadTag` where a tag goes on after
/// three octets.
pub fn first(bytes: &[u8]) -> Result<(Tlv<'_>, &[u8]), BerFault>
    // An element where the input begins with one, else the refusal that the input earns.
    ensures reads { Reads {Y = Element × List ℕ} (λ x. (element x.0, x.1.now)) result
        (λ y. Begins bytes.now y.0 y.1) (IsRefused bytes.now) }
    ensures exact { Gives (λ x. (element x.0, x.1.now)) result (first_at bytes.now) }
    ensures shorter { IfOk result (λ x. length x.1.now < length bytes.now) }
    ensures bound { IfOk result (λ x. length x.0.content.now < 2 ^ 32) }
    // Both are slices of the input.
    ensures places { IfOk result (λ x. IsSliceAt bytes.entry x.0.head x.0.content
        × IsSliceAt bytes.entry (x.0.head + length x.0.content.now) x.1) }
{
    read_first(bytes)
}
