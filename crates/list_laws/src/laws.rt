//! Laws of places by example, for names and numbers; of any elements they stand in `proofs/Places.antt`.

ghost use Rattle.std.specs.Prelude.{◌≡◌, ℕ, ◌<◌, ◌==◌, List, [], ◌∷◌, ◌++◌, length, position, None};
ghost use Rattle.std.specs.Prelude.{Some, slice_set, slice_index_or, if◌then◌else◌};
ghost use Rattle.std.specs.Option.{option_or};
ghost use Rattle.std.specs.Str.{bytes_eq};

/// A name that is first found in a list is found there in the list with one more after.
pub fn a_name_more()
    ensures { (names : List (List ℕ)) (name other : List ℕ)
        → position (bytes_eq other) (names ++ name ∷ []) ≡ option_or
        (position (bytes_eq other) names)
        (if bytes_eq other name then Some (length names) else None) }
{}

/// After an element is set, that place holds it, and each other what it held.
pub fn an_element_is_set()
    ensures { (all : List ℕ) (y x w d : ℕ) → y < length all → slice_index_or (slice_set all y w) x d
        ≡ (if y == x then w else slice_index_or all x d) }
{}
