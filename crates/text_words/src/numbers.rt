//! Numbers in decimal, without leading zeros.

ghost use Rattle.std.specs.Prelude.{◌≡◌, ◌≤◌, MatchOption};
ghost use Rattle.std.specs.Str.Parse.{digits_value};
ghost use Rattle.text_words.specs.Numbers.{AreDigitsOf64, number_at, number_within, int_at};
ghost use Rattle.text_words.specs.Numbers.{negatives as negatives_of, minus as minus_of};
ghost use Rattle.text_words.specs.Numbers.{positive_at, negative_at};

use crate::words::after_front;

/// The number of these digits, if it is below 2^64; leading zeros may be among them.
fn digits_of(word: &[u8]) -> Option<u64>
    ensures { MatchOption result (¬ AreDigitsOf64 word.now) (λ n. AreDigitsOf64 word.now
        × (n ≡ digits_value 10 word.now)) }
{
    let mut n = 0u64;
    for octet in word {
        if *octet < b'0' || *octet > b'9' {
            return None;
        }
        n = n.checked_mul(10)?.checked_add(u64::from(*octet - b'0'))?;
    }
    Some(n)
}

/// The number below 2^64 that the octets spell in decimal, without leading zeros.
pub fn number(octets: &[u8]) -> Option<u64>
    ensures { result ≡ number_at octets.now }
{
    if octets.is_empty() {
        return None;
    }
    if octets.len() > 1 && octets[0] == b'0' {
        return None;
    }
    digits_of(octets)
}

/// The number, if it is within these bounds.
pub fn number_between(octets: &[u8], least: u32, most: u32) -> Option<u32>
    ensures { result ≡ number_within least most octets.now }
{
    match number(octets) {
        Some(n) if n >= u64::from(least) && n <= u64::from(most) => Some(n as u32),
        _ => None,
    }
}

/// How many numbers of n bits, 8, 16, 32 or 64, are negative.
fn negatives(bits: u8) -> u64
    ensures value { result ≡ negatives_of bits }
    ensures few { result ≤ 9223372036854775808 }
{
    match bits {
        8 => 128,
        16 => 32768,
        32 => 2147483648,
        _ => 9223372036854775808,
    }
}

/// The number with its sign turned round.
fn minus(n: u64) -> i64
    requires { n ≤ 9223372036854775808 }
    ensures { result ≡ minus_of n }
{
    if n == 0 { 0 } else { -1 - (n - 1) as i64 }
}

fn positive(octets: &[u8], negatives: u64) -> Option<i64>
    requires { negatives ≤ 9223372036854775808 }
    ensures { result ≡ positive_at negatives (number_at octets.now) }
{
    match number(octets) {
        Some(n) if n < negatives => Some(n as i64),
        _ => None,
    }
}

fn negative(digits: &[u8], negatives: u64) -> Option<i64>
    requires { negatives ≤ 9223372036854775808 }
    ensures { result ≡ negative_at negatives (number_at digits.now) }
{
    match number(digits) {
        Some(n) if n <= negatives => Some(minus(n)),
        _ => None,
    }
}

/// The number of n bits that the octets spell, with `-` where it is negative; 0 may have one too.
pub fn int(octets: &[u8], bits: u8) -> Option<i64>
    ensures { result ≡ int_at bits octets.now }
{
    let negatives = negatives(bits);
    match after_front(octets, b"-") {
        Some(digits) => negative(digits, negatives),
        None => positive(octets, negatives),
    }
}
