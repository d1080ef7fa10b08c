//! Copies of texts, bits and types.

ghost use Rattle.std.specs.Prelude.{◌≡◌, IfOk};

use crate::{Bits, Octs, TypeOf};
use std::alloc::{AllocError, Global};

impl Octs {
    /// A copy of these octets.
    pub fn copied(alloc: Global, octets: &[u8]) -> Result<Octs, AllocError>
        ensures { IfOk result (λ o. o ≡ octets.now) }
    {
        Ok(Octs::from_vec(Vec::from_slice(alloc, octets)?))
    }

    /// The same octets again.
    pub fn copy(&self, alloc: Global) -> Result<Octs, AllocError>
        ensures { IfOk result (λ o. o ≡ self.now) }
    {
        Octs::copied(alloc, self.as_slice())
    }
}

impl Bits {
    /// The same bits again.
    pub fn copy(&self, alloc: Global) -> Result<Bits, AllocError>
        ensures { IfOk result (λ b. b ≡ self.now) }
    {
        Ok(Bits::from_vec(Vec::from_slice(alloc, self.as_slice())?))
    }
}

impl TypeOf {
    /// The same type again: a structure's components are shared. It takes no memory.
    pub fn share(&self) -> Result<TypeOf, AllocError>
        ensures { IfOk result (λ k. k ≡ self.now) }
    {
        match self {
            TypeOf::Bool => Ok(TypeOf::Bool),
            TypeOf::Int(width) => Ok(TypeOf::Int(*width)),
            TypeOf::Uint(width) => Ok(TypeOf::Uint(*width)),
            TypeOf::Bits(len) => Ok(TypeOf::Bits(*len)),
            TypeOf::Time => Ok(TypeOf::Time),
            TypeOf::Stamp => Ok(TypeOf::Stamp),
            TypeOf::Text(most) => Ok(TypeOf::Text(*most)),
            TypeOf::Octets(most) => Ok(TypeOf::Octets(*most)),
            TypeOf::EntryId => Ok(TypeOf::EntryId),
            TypeOf::Struct(parts) => Ok(TypeOf::Struct(parts.share()?)),
        }
    }
}
