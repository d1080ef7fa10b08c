//! What a line's octets are, looked at in place: most of them in blocks of a constant number, in which no octet ends a look,
//! so that many are looked at in one step.

ghost use Rattle.std.specs.Prelude.{◌≡◌, ◌↔◌, ◌+◌, ◌<◌, ◌≤◌, false, length};
ghost use Rattle.std.specs.List.{slice_range};
ghost use Rattle.run_record.specs.Octets.{is_fault as fault, IsFaultless, is_clear as clear};
ghost use Rattle.run_record.specs.Octets.{has_odd_spaces};

/// The most octets of a line.
pub const MOST_OCTETS: usize = 140100;

/// The octet at `i` stands in no line, or is a space after a space.
#[inline(always)]
fn is_fault(line: &[u8], i: usize) -> bool
    requires { (0 < i) × (i < length line.now) }
    ensures { result ≡ fault line.now i }
{
    (line[i] < 0x20) | (line[i] > 0x7e) | ((line[i - 1] == b' ') & (line[i] == b' '))
}

/// One of `N` octets, from `at` on, is a fault.
#[inline(always)]
fn has_fault_at<const N: usize>(line: &[u8], at: usize) -> bool
    requires { (0 < at) × (at + N ≤ length line.now) }
    ensures { (result ≡ false) ↔ IsFaultless line.now at (at + N) }
{
    let mut found = false;
    for k in 0..N {
        found = found | is_fault(line, at + k);
    }
    found
}

fn has_fault_by_one(line: &[u8]) -> bool
    ensures { (result ≡ false) ↔ IsFaultless line.now 1 (length line.now) }
{
    for i in 1..line.len() {
        if is_fault(line, i) {
            return true;
        }
    }
    false
}

// The last block overlaps the one before.
fn has_fault_by_blocks(line: &[u8]) -> bool
    requires { 16 < length line.now }
    ensures { (result ≡ false) ↔ IsFaultless line.now 1 (length line.now) }
{
    let mut at = 1;
    while line.len() - at > 16 {
        if has_fault_at::<16>(line, at) {
            return true;
        }
        at += 16;
    }
    has_fault_at::<16>(line, line.len() - 16)
}

/// An octet after the first is a fault.
fn has_fault(line: &[u8]) -> bool
    ensures { (result ≡ false) ↔ IsFaultless line.now 1 (length line.now) }
{
    if line.len() < 9 {
        has_fault_by_one(line)
    } else if line.len() < 17 {
        has_fault_at::<8>(line, 1) | has_fault_at::<8>(line, line.len() - 8)
    } else {
        has_fault_by_blocks(line)
    }
}

/// The line is not too long, each of its octets may stand in a line, and none of its words is empty.
pub fn is_clear(line: &[u8]) -> bool
    ensures { result ≡ clear line.now }
{
    let [first, ..] = line else {
        return false;
    };
    let is_bounded = (line.len() <= MOST_OCTETS)
        & (*first > b' ')
        & (*first <= 0x7e)
        & (line[line.len() - 1] != b' ');
    is_bounded && !has_fault(line)
}

/// The spaces of `N` octets, from `at` on, are an odd count.
#[inline(always)]
fn are_odd_at<const N: usize>(text: &[u8], at: usize) -> bool
    requires { at + N ≤ length text.now }
    ensures { result ≡ has_odd_spaces (slice_range text.now at (at + N)) }
{
    let mut odd = false;
    for k in 0..N {
        odd = odd ^ (text[at + k] == b' ');
    }
    odd
}

fn are_odd_from(text: &[u8], at: usize) -> bool
    requires { at ≤ length text.now }
    ensures { result ≡ has_odd_spaces (slice_range text.now at (length text.now)) }
{
    let mut odd = false;
    for i in at..text.len() {
        odd = odd ^ (text[i] == b' ');
    }
    odd
}

/// The spaces are an odd count.
pub fn are_odd(text: &[u8]) -> bool
    ensures { result ≡ has_odd_spaces text.now }
{
    let mut odd = false;
    let mut at = 0;
    while text.len() - at >= 16 {
        odd = odd ^ are_odd_at::<16>(text, at);
        at += 16;
    }
    odd ^ are_odd_from(text, at)
}
