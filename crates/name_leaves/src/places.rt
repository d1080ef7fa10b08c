//! The places of names that stand elsewhere.

ghost use Rattle.std.specs.Prelude.{◌≡◌, ℕ, List, None, OnOk};
ghost use Rattle.std.specs.Str.{bytes_eq};
ghost use Rattle.indexmap.specs.IndexMap.{get_by};
ghost use Rattle.name_leaves.specs.Numbers.{number_or};

use crate::hashing::NameHasher;
use indexmap::IndexMap;
use std::alloc::{AllocError, Global};
use std::hash::BuildHasherDefault;

/// Places by name.
type Numbers<'a> = IndexMap<&'a [u8], usize, BuildHasherDefault<NameHasher>>;

/// Different names, each with its place in a list.
#[derive(Drop)]
pub struct Places<'a> {
    numbers: Numbers<'a>,
}

/// Gives a name that has none a place.
fn add<'a>(numbers: &mut Numbers<'a>, name: &'a [u8], place: usize) -> Result<(), AllocError>
    requires { get_by (λ k. bytes_eq name.now k.now) numbers.old ≡ None }
    ensures { OnOk result ((other : List ℕ) → get_by (λ k. bytes_eq other k.now) numbers.new
        ≡ number_or (get_by (λ k. bytes_eq other k.now) numbers.old)
        (bytes_eq other name.now) place) }
{
    numbers.insert(name, place)?;
    Ok(())
}

impl<'a> Places<'a> {
    ghost use Rattle.std.specs.Prelude.{◌≡◌, ◌∷◌, ◌++◌, [], ℕ, List, None, length, OnOk};
    ghost use Rattle.name_leaves.specs.Indexes.{PlacesOf, place_in};

    /// No names.
    pub fn new(alloc: Global) -> Self
        ensures { PlacesOf result [] }
    {
        Places {
            numbers: IndexMap::with_hasher(alloc, BuildHasherDefault::new()),
        }
    }

    /// One more name, at the next place.
    pub fn push(&mut self, name: &'a [u8], place: usize) -> Result<(), AllocError>
        requires { place_in self.old name.now ≡ None }
        ensures { OnOk result ((names : List (List ℕ)) → PlacesOf self.old names
            → place ≡ length names → PlacesOf self.new (names ++ name.now ∷ [])) }
    {
        add(&mut self.numbers, name, place)?;
        Ok(())
    }

    /// The place of a name; none exactly where it is not there.
    pub fn place_of(&self, name: &[u8]) -> Option<usize>
        ensures { result ≡ place_in self.now name.now }
    {
        self.numbers.get(name).copied()
    }
}
