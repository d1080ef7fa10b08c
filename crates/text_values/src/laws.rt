//! A value that a text may spell of a type is one that an attribute of this type may hold.

ghost use Rattle.std.specs.Prelude.{◌≡◌, true};
ghost use Rattle.sv_base.specs.declared.types.TypeOf.{TypeOf};
ghost use Rattle.sv_base.specs.declared.value.Value.{Value};
ghost use Rattle.text_words.specs.Grammar.{IsType, IsOfType};
ghost use Rattle.sv_base.specs.Kinds.{kind_of, is_kind, is_in_range};
ghost use Rattle.object_model.specs.Fits.{is_sound};

/// A value of a type, as the texts of configurations and records have it, is of its kind, within its range, and sound.
pub fn values_are_of_their_types()
    ensures kinds { (k : TypeOf) (v : Value) → IsOfType k v → is_kind (kind_of k) v ≡ true }
    ensures ranges { (k : TypeOf) (v : Value) → IsType k → IsOfType k v
        → is_in_range (kind_of k) v ≡ true }
    ensures sound { (k : TypeOf) (v : Value) → IsOfType k v → is_sound v ≡ true }
{}
