//! The hashing of names.

ghost use Rattle.name_leaves.specs.Hashing.{with_octets, mixed};

use std::hash::{FoldHasher, Hasher};

/// A hasher for names, which are hashed octet by octet: it gathers the octets in a word, and mixes that at the end alone.
/// Whoever picks the names can make them collide.
#[derive(Clone, Copy)]
pub struct NameHasher {
    word: u64,
}

impl Default for NameHasher {
    ghost use Rattle.std.specs.Prelude.{◌≡◌};

    ghost is_default = { λ hasher. hasher.word ≡ 0 };

    fn default() -> NameHasher {
        NameHasher { word: 0 }
    }
}

impl Hasher for NameHasher {
    ghost write = { with_octets };

    ghost finish = { mixed };

    fn finish(&self) -> u64 {
        let mut mixer = FoldHasher::default();
        mixer.write_u64(self.word);
        mixer.finish()
    }

    fn write(&mut self, bytes: &[u8]) {
        for octet in bytes {
            self.word = self.word.rotate_left(5) ^ u64::from(*octet);
        }
    }
}
