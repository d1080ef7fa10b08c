//! What is promised of the grammar: each input has one reading.

ghost use Rattle.std.specs.Prelude.{◌≡◌, ℕ, ℤ, Bool, ◌⊎◌, ◌++◌, List, []};
ghost use Rattle.ber_grammar.specs.declared.fault.BerFault.{BerFault};
ghost use Rattle.ber_grammar.specs.Octets.{IsBytes};
ghost use Rattle.ber_grammar.specs.Element.{Element, Spells, Begins, IsRefused, IsRow};
ghost use Rattle.ber_grammar.specs.Content.{IsBoolean, IsInt, IsUint, IsBits};
ghost use Rattle.ber_grammar.specs.Fields.{AreFields, IsField, IsOnly};
ghost use Rattle.ber_grammar.specs.Place.{Piece, Spot};

/// Each input begins with one element, or is refused for one cause, and never both.
pub fn each_input_begins_one_element()
    ensures answered { (input : List ℕ) → ((e : Element) × (rest : List ℕ) × Begins input e rest)
        ⊎ ((f : BerFault) × IsRefused input f) }
    ensures unique { (input : List ℕ) (d e : Element) (r s : List ℕ) → Begins input d r
        → Begins input e s → (d ≡ e) × (r ≡ s) }
    ensures one_cause { (input : List ℕ) (f g : BerFault) → IsRefused input f
        → IsRefused input g → f ≡ g }
    ensures not_both { (input : List ℕ) (e : Element) (rest : List ℕ) (f : BerFault)
        → Begins input e rest → IsRefused input f → ⊥ }
{}

/// No spelling of an element is the beginning of another.
pub fn no_spelling_begins_another()
    ensures { (front more : List ℕ) (d e : Element) → Spells front d
        → Spells (front ++ more) e → more ≡ [] }
{}

/// Octets are a row of elements in one way.
pub fn each_input_is_one_row()
    ensures { (octets : List ℕ) (ds es : List Element) → IsRow octets ds
        → IsRow octets es → ds ≡ es }
{}

/// A row after a row is the row of both.
pub fn rows_join()
    ensures { (front rest : List ℕ) (ds es : List Element) → IsRow front ds → IsRow rest es
        → IsRow (front ++ rest) (ds ++ es) }
{}

/// A content spells one boolean at most, one signed number, one unsigned number, and one bit string.
pub fn each_content_spells_one_value()
    ensures booleans { (content : List ℕ) (b c : Bool) → IsBoolean content b
        → IsBoolean content c → b ≡ c }
    ensures signed { (content : List ℕ) (v w : ℤ) → IsBytes content → IsInt content v
        → IsInt content w → v ≡ w }
    ensures unsigned { (content : List ℕ) (m n : ℕ) → IsUint content m → IsUint content n → m ≡ n }
    ensures bits { (content : List ℕ) (bs cs : List Bool) → IsBits content bs
        → IsBits content cs → bs ≡ cs }
{}

/// A content has its fields in one way; it has one first field with a tag at most, and one only field. Octets are one
/// element at most.
pub fn each_content_has_one_row_of_fields()
    ensures fields { (content : Piece) (ss ts : List Spot) → AreFields content ss
        → AreFields content ts → ss ≡ ts }
    ensures first { (tag : ℕ) (content p q : Piece) → IsField tag content p
        → IsField tag content q → p ≡ q }
    ensures only { (tag : ℕ) (content p q : Piece) → IsOnly tag content p
        → IsOnly tag content q → p ≡ q }
    ensures whole { (octets : List ℕ) (d e : Element) → Spells octets d → Spells octets e → d ≡ e }
{}
