//! The limits of a record, which are those of a rehearsal's input too.

ghost use Rattle.std.specs.Prelude.{◌≡◌, ◌&&◌, nat_lt};
ghost use Rattle.record_outcome.specs.Records.{most_lines};

/// The most octets.
pub const MOST_OCTETS: usize = 67108864;

/// The most lines.
pub const MOST_LINES: u64 = 1000000;

/// The line with this number has begun, and is one too many.
pub fn is_over(begun: bool, number: u64) -> bool
    ensures { result ≡ (begun && nat_lt most_lines number) }
{
    begun && number > MOST_LINES
}
