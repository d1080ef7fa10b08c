//! The places of names in their list.

ghost use Rattle.std.specs.Prelude.{◌≡◌, IfOk};

use octet_rows::Index;
use std::alloc::{AllocError, Global};
use sv_base::Octs;

/// The names, each found at its place.
pub fn index_of(alloc: Global, names: &[Octs]) -> Result<Index, AllocError>
    ensures { IfOk result (λ index. index ≡ names.now) }
{
    let mut index = Index::new(alloc);
    for name in names {
        index.push(name.as_slice())?;
    }
    Ok(index)
}
