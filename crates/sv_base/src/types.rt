//! The types of attributes, of components and of structures of these (ISO 9506-2, TypeSpecification).

use crate::ShortOcts;
use std::alloc::{AllocError, Global};
use std::marker::Model;
use std::sync::Arc;

/// The type of an attribute, of a component or of a structure of these (ISO 9506-2, TypeSpecification).
#[derive(Debug, Drop)]
#[cycle(types)]
pub enum TypeOf {
    Bool,
    /// A signed number of n bits: 8, 16, 32 or 64.
    Int(u8),
    /// An unsigned number of n bits: 8, 16 or 32.
    Uint(u8),
    /// This many truth values, 1 to 64.
    Bits(u16),
    Time,
    Stamp,
    /// At most n visible octets, 1 to 255.
    Text(u16),
    /// At most n octets, 1 to 255.
    Octets(u16),
    /// The eight octets of the component EntryID (IEC 61850-7-2, buffered report control block).
    EntryId,
    Struct(Parts),
}

/// A component of a structure: its name and its type.
#[derive(Debug, Drop)]
#[cycle(types)]
pub struct Part1 {
    pub name: ShortOcts,
    pub kind: TypeOf,
}

/// The components of a structure, in order. Contracts see them as `Fields` of `specs/Types`; `fields_of` gives the fields
/// of a list of components, and `parts_of` the list of the fields.
#[derive(Debug, Drop)]
#[cycle(types)]
pub struct Parts {
    items: Arc<Vec<Part1>>,
}

impl Model for Parts {
    ghost use Rattle.sv_base.specs.Types.{Fields, fields_code, weight_fields};

    ghost Value = { Fields };

    ghost coded = { fields_code };

    ghost use Rattle.sv_base.specs.Fields.{fields_of};

    ghost view = { λ p. fields_of p.items.value.items };

    ghost size = { weight_fields };

    ghost use Rattle.std.proofs.Common.{arith};
    ghost use Rattle.sv_base.specs.Falls.{most-parts-le};

    ghost size_decreases = { λ a h. omega (arith, most-parts-le a.items.value.items) };
}

#[tactic(auto, using(crate::proofs::FieldLaws::fields))]
impl Parts {
    ghost use Rattle.std.specs.Prelude.{◌≡◌, ◌==◌, length, slice_get, option_copied, IfOk};
    ghost use Rattle.sv_base.specs.Fields.{fields_of, parts_of};

    /// The components in this order.
    pub fn from_vec(alloc: Global, items: Vec<Part1>) -> Result<Self, AllocError>
        ensures { IfOk result (λ p. p ≡ fields_of items.items) }
    {
        Ok(Parts {
            items: Arc::new(alloc, items)?,
        })
    }

    /// The same components again. It takes no memory.
    pub fn share(&self) -> Result<Self, AllocError>
        ensures { IfOk result (λ p. p ≡ self.now) }
    {
        Ok(Parts {
            items: Arc::try_clone(&self.items)?,
        })
    }

    /// How many components there are.
    pub fn len(&self) -> usize
        ensures { result ≡ length (parts_of self.now) }
    {
        self.as_slice().len()
    }

    /// There is no component.
    pub fn is_empty(&self) -> bool
        ensures { result ≡ (length (parts_of self.now) == 0) }
    {
        self.as_slice().is_empty()
    }

    /// The component at a place, counted from 0; none exactly where there are no more than that.
    pub fn get(&self, i: usize) -> Option<&Part1>
        ensures { option_copied result ≡ slice_get (parts_of self.now) i }
    {
        self.as_slice().get(i)
    }

    /// The components, borrowed.
    pub fn as_slice(&self) -> &[Part1]
        ensures fields { fields_of result.now ≡ self.now }
        ensures items { result.now ≡ parts_of self.now }
    {
        self.items.as_slice()
    }
}
