//! What is promised of Data and types.

ghost use Rattle.std.specs.Prelude.{◌≡◌, ◌≤◌, ◌<◌, ◌^◌, ◌++◌, List, ℕ, length};
ghost use Rattle.ber_grammar.specs.Octets.{IsBytes};
ghost use Rattle.ber_grammar.specs.Element.{Element, Spells, Begins};
ghost use Rattle.sv_base.specs.Tree.{Seen};
ghost use Rattle.sv_base.specs.Seen.{seen_of};
ghost use Rattle.sv_base.specs.Data.{data_of, data_seen};
ghost use Rattle.sv_base.specs.Depth.{depth, HasNoOther, SeenHasNoOther};
ghost use Rattle.sv_base.specs.declared.value.Value.{Value};
ghost use Rattle.mms_data.specs.Grammar.{IsData, IsWithin, IsSpelled};
ghost use Rattle.mms_data.specs.Reading.{data_at, read_at};
ghost use Rattle.sv_base.specs.declared.types.TypeOf.{TypeOf};
ghost use Rattle.mms_data.specs.TypeOctets.{type_of, FitsType};
ghost use Rattle.mms_data.specs.Writable.{Fits, SeenHasFractions, SeenIsOfTypes};

/// What is written of a value spells it, whatever follows, so that it is read back as the same value. An element spells
/// one value.
pub fn data_is_read_back()
    ensures whole { (v : Value) → HasNoOther v → depth v ≤ 10 → Fits v → SeenIsOfTypes (seen_of v)
        → IsSpelled (data_of v) (seen_of v) }
    ensures followed { (v : Value) (rest : List ℕ) → HasNoOther v → depth v ≤ 10 → Fits v
        → SeenIsOfTypes (seen_of v)
        → (e : Element) × Begins (data_of v ++ rest) e rest × IsWithin 10 e (seen_of v) }
    ensures one_value { (e : Element) (s t : Seen) → IsBytes e.content → IsData s e
        → IsData t e → s ≡ t }
{}

/// No spelling of a value is shorter than what is written.
pub fn data_is_minimal()
    ensures { (octets : List ℕ) (e : Element) (s : Seen) → IsBytes octets → Spells octets e
        → IsData s e → SeenHasNoOther s
        → length (data_seen s) ≤ length octets }
{}

/// What is written of a type is one element, whatever follows.
pub fn types_are_elements()
    ensures { (t : TypeOf) (rest : List ℕ) → FitsType t
        → (e : Element) × Begins (type_of t ++ rest) e rest }
{}

/// What comes to at most 4294967295 octets can be written.
pub fn short_ones_fit()
    ensures values { (v : Value) → length (data_of v) < 2 ^ 32
        → SeenHasFractions (seen_of v) → Fits v }
    ensures types { (t : TypeOf) → length (type_of t) < 2 ^ 32 → FitsType t }
{}

/// Octets that are one element are read as the element is, so that they have a view where they have a value.
pub fn elements_are_read_as_octets_are()
    ensures { (octets : List ℕ) (e : Element) → Spells octets e → read_at octets ≡ data_at 10 e }
{}
