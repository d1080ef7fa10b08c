//! A number for each row of octets, the same for the same row.

ghost use Rattle.std.specs.Prelude.{◌≡◌, ◌<◌, length, fold};
ghost use Rattle.octet_rows.specs.Hashing.{mixed_with, mixed_to, word_with, nothing, gathered};
ghost use Rattle.octet_rows.specs.Hashing.{number_of, hash_at};

/// The octets of a row that is gone over from its front, gathered: eight at a time are mixed into what stands before them. Whoever picks
/// the octets can make two rows have one number.
#[derive(Clone, Copy)]
pub struct RowHash {
    mixed: u64,
    word: u64,
    octets: u8,
}

/// Mixes a word into what stands before it.
fn mix(before: u64, word: u64) -> u64
    ensures { result ≡ mixed_with before word }
{
    (before.rotate_left(5) ^ word).wrapping_mul(0x517c_c1b7_2722_0a95)
}

impl RowHash {
    ghost use Rattle.std.specs.Prelude.{◌≡◌};

    /// Of no octets.
    pub fn new() -> Self
        ensures { result ≡ nothing }
    {
        RowHash {
            mixed: 0,
            word: 0,
            octets: 0,
        }
    }

    /// With one octet more.
    pub fn with(self, octet: u8) -> Self
        ensures { result ≡ gathered self octet }
    {
        let word = joined(self.word, octet);
        if self.octets == 7 {
            return RowHash {
                mixed: mix(self.mixed, word),
                word: 0,
                octets: 0,
            };
        }
        RowHash {
            mixed: self.mixed,
            word,
            octets: self.octets.wrapping_add(1),
        }
    }

    /// The number of the octets so far.
    pub fn number(self) -> u64
        ensures { result ≡ number_of self }
    {
        mix(self.mixed, self.word)
    }
}

/// A word with one octet more after it.
fn joined(word: u64, octet: u8) -> u64
    ensures { result ≡ word_with word octet }
{
    word.rotate_left(8) ^ u64::from(octet)
}

/// What the words of eight octets at the front are mixed to, and the octets after them.
fn mixed_front(row: &[u8]) -> (u64, &[u8])
    ensures few { length result.1.now < 8 }
    ensures gathered { fold gathered nothing row.now ≡ fold gathered
        (mixed_to result.0) result.1.now }
{
    let mut mixed = 0;
    let mut rest = row;
    while let [a, b, c, d, e, f, g, h, after @ ..] = rest {
        let front = joined(joined(joined(joined(0, *a), *b), *c), *d);
        mixed = mix(mixed, joined(joined(joined(joined(front, *e), *f), *g), *h));
        rest = after;
    }
    (mixed, rest)
}

/// The number of a row.
pub fn hash_of(row: &[u8]) -> u64
    ensures { result ≡ hash_at row.now }
{
    let (mixed, rest) = mixed_front(row);
    let mut word = 0;
    for octet in rest {
        word = joined(word, *octet);
    }
    mix(mixed, word)
}
