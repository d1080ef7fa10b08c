//! Places in a circular buffer.

ghost use Rattle.std.specs.Prelude.{◌≡◌, ◌≤◌, ◌+◌, ◌++◌, take, drop, length};
ghost use Rattle.entry_ring.specs.Places.{behind as behind_in, offset as offset_in};

/// The place n octets after another.
pub fn behind(capacity: usize, at: usize, len: usize) -> usize
    requires small { capacity ≤ 4294967295 }
    requires at { at ≤ capacity }
    requires len { len ≤ capacity }
    ensures { result ≡ behind_in capacity at len }
{
    if capacity < at + len {
        at + len - (capacity + 1)
    } else {
        at + len
    }
}

/// How far a place is after another.
pub fn offset(capacity: usize, begin: usize, at: usize) -> usize
    requires small { capacity ≤ 4294967295 }
    requires begin { begin ≤ capacity }
    requires at { at ≤ capacity }
    ensures { result ≡ offset_in capacity begin at }
{
    if at < begin {
        at + (capacity + 1) - begin
    } else {
        at - begin
    }
}

/// This many octets from a place on, of two rows that follow each other.
pub fn cut<'a>(first: &'a [u8], second: &'a [u8], from: usize, len: usize) -> (&'a [u8], &'a [u8])
    requires { from + len ≤ length first.now + length second.now }
    ensures { result.0.now ++ result.1.now ≡ take len (drop from (first.now ++ second.now)) }
{
    let middle = first.len();
    if middle <= from {
        return (&[], &second[from - middle..from - middle + len]);
    }
    if from + len <= middle {
        return (&first[from..from + len], &[]);
    }
    (&first[from..], &second[..from + len - middle])
}
