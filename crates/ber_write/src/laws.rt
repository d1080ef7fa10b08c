//! What is promised of what is written: it is the one minimal spelling, and it is read back.

ghost use Rattle.std.specs.Prelude.{◌≡◌, ℕ, ℤ, Bool, Ok, ◌+◌, ◌<◌, ◌≤◌, ◌^◌, ◌++◌, List, length};
ghost use Rattle.ber_grammar.specs.Octets.{IsBytes};
ghost use Rattle.ber_grammar.specs.Element.{Element, Spells, Begins};
ghost use Rattle.ber_grammar.specs.Content.{IsInt, IsUint, IsBits};
ghost use Rattle.ber_grammar.specs.Reading.{first_at, int_at, uint_at, bits_at};
ghost use Rattle.ber_write.specs.Minimal.{written, tag_octets, octets_of, CanBeTag, int_octets};
ghost use Rattle.ber_write.specs.Minimal.{uint_octets, IsWord, HasNoSpare};
ghost use Rattle.ber_write.specs.BitString.{bit_octets, HasClearEnd};

/// No spelling of an element is shorter than what is written, and none as short is another.
pub fn elements_are_minimal()
    ensures { (octets : List ℕ) (e : Element) → IsBytes octets → Spells octets e
        → (length (octets_of e.tag e.content) ≤ length octets)
        × (length octets ≡ length (octets_of e.tag e.content)
        → octets ≡ octets_of e.tag e.content) }
{}

/// What is written of an element spells it, and is read back whatever follows. Each tag that spells an element can be
/// written.
pub fn elements_are_read_back()
    ensures spelled { (tag : ℕ) (content rest : List ℕ) → CanBeTag tag → length content < 2 ^ 32
        → Begins (octets_of tag content ++ rest) (written tag content) rest }
    ensures again { (tag : ℕ) (content rest : List ℕ) → CanBeTag tag → length content < 2 ^ 32
        → first_at (octets_of tag content ++ rest) ≡ Ok (written tag content, rest) }
    ensures tags { (octets : List ℕ) (e : Element) → IsBytes octets → Spells octets e
        → CanBeTag e.tag }
{}

/// What is written of a number spells it and is read back, has no octet to spare, and no spelling is shorter, nor another
/// as short.
pub fn numbers_are_minimal()
    ensures signed { (v : ℤ) → IsWord v → IsInt (int_octets v) v × HasNoSpare (int_octets v)
        × (int_at (int_octets v) ≡ Ok v) }
    ensures unsigned { (n : ℕ) → n < 2 ^ 64 → IsUint (uint_octets n) n × HasNoSpare (uint_octets n)
        × (uint_at (uint_octets n) ≡ Ok n) }
    ensures shortest_signed { (content : List ℕ) (v : ℤ) → IsBytes content → IsInt content v
        → (length (int_octets v) ≤ length content) × (length content ≡ length (int_octets v)
        → content ≡ int_octets v) }
    ensures shortest_unsigned { (content : List ℕ) (n : ℕ) → IsBytes content → IsUint content n
        → (length (uint_octets n) ≤ length content) × (length content ≡ length (uint_octets n)
        → content ≡ uint_octets n) }
{}

/// What is written of a bit string spells it and is read back, no spelling is shorter or longer, and the one whose unused
/// bits are 0 is the one that is written.
pub fn bit_strings_are_minimal()
    ensures spelled { (bits : List Bool) → IsBits (bit_octets bits) bits
        × HasClearEnd (bit_octets bits) bits × (bits_at (bit_octets bits) ≡ Ok bits) }
    ensures as_long { (content : List ℕ) (bits : List Bool) → IsBits content bits
        → length content ≡ length (bit_octets bits) }
    ensures only { (content : List ℕ) (bits : List Bool) → IsBytes content → IsBits content bits
        → HasClearEnd content bits → content ≡ bit_octets bits }
{}
