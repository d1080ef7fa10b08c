//! A list of few, which takes memory from the second on.

ghost use Rattle.std.specs.Prelude.{◌≡◌, IfOk};
ghost use Rattle.sv_base.specs.Few.{few_items};

use std::alloc::{AllocError, Global};
use std::marker::Model;
use std::mem;
use std::ops::DerefSlice;

#[derive(Drop)]
enum Items<T> {
    One([T; 1]),
    Many(Vec<T>),
}

/// A list that mostly has one, which takes no memory.
#[derive(Drop)]
pub struct Few<T> {
    items: Items<T>,
}

impl<T> Model for Few<T> {
    ghost use Rattle.std.specs.Prelude.{List};

    ghost Value = { List T };

    ghost use Rattle.std.specs.Coded.{codes};

    ghost coded = { Prim.hlevel (codes, T.code) };

    ghost use Rattle.sv_base.specs.Few.{few_items};

    ghost view = { λ few. few_items few.items };
}

/// The list in a vector.
fn into_vec<T: Drop>(alloc: Global, list: Items<T>) -> Result<Vec<T>, AllocError>
    ensures { IfOk result (λ v. v.items ≡ few_items list) }
{
    match list {
        Items::One(item) => Ok(Vec::from_array(alloc, item)?),
        Items::Many(items) => Ok(items),
    }
}

impl<T> Few<T> {
    ghost use Rattle.std.specs.Prelude.{◌≡◌, ◌∷◌, [], length};

    /// A list of one.
    pub fn one(item: T) -> Self
        ensures { result ≡ item ∷ [] }
    {
        Few {
            items: Items::One([item]),
        }
    }

    /// The list of these.
    pub fn many(items: Vec<T>) -> Self
        ensures { result ≡ items.items }
    {
        Few {
            items: Items::Many(items),
        }
    }

    /// What is in the list.
    pub fn as_slice(&self) -> &[T]
        ensures { result.now ≡ self.now }
    {
        match &self.items {
            Items::One(items) => items,
            Items::Many(items) => items.as_slice(),
        }
    }

    /// How many are in the list.
    pub fn len(&self) -> usize
        ensures { result ≡ length self.now }
    {
        self.as_slice().len()
    }
}

impl<T: Drop> Few<T> {
    ghost use Rattle.std.specs.Prelude.{◌≡◌, ◌∷◌, ◌++◌, [], OnOk};

    /// One more at the end; where there is no memory for it, the list may be empty afterwards.
    pub fn push(&mut self, alloc: Global, item: T) -> Result<(), AllocError>
        ensures { OnOk result (self.new ≡ self.old ++ item ∷ []) }
    {
        if let Items::Many(items) = &mut self.items {
            items.push(item)?;
            return Ok(());
        }
        let list = mem::replace(self, Few::many(Vec::new(alloc)));
        let mut items = into_vec(alloc, list.items)?;
        items.push(item)?;
        *self = Few::many(items);
        Ok(())
    }
}

impl<T> DerefSlice for Few<T> {
    type Elem = T;

    ghost use Rattle.std.specs.Prelude.{◌≡◌};

    ghost deref_gives = { λ few items. items ≡ few };

    fn deref(&self) -> &[T] {
        self.as_slice()
    }
}
