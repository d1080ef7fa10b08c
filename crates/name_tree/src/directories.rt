//! The names of a domain's nodes, and where the name of a node is.

ghost use Rattle.std.specs.Prelude.{IfOk};
ghost use Rattle.name_tree.specs.Directories.{IsDirectoryOf};

use name_leaves::{count, plus};
use name_order::places_in_order;
use octet_rows::Index;
use std::alloc::{AllocError, Global};

/// The names of a domain: the number of its first node, the items of its nodes, one after another, and their places in the
/// ascending order of their octets.
#[derive(Drop)]
pub struct Directory {
    pub first: u32,
    pub items: Index,
    pub ascending: Vec<u32>,
}

/// Where the name of a node is: the number of its domain, and the place of its item among those of the domain.
#[derive(Clone, Copy)]
pub struct NodeName {
    pub domain: u32,
    pub place: u32,
}

/// The names of a domain whose nodes have these items, the first of them this number.
pub fn directory_of(alloc: Global, first: u32, items: Index) -> Result<Directory, AllocError>
    ensures { IfOk result (λ d. IsDirectoryOf first items d) }
{
    let mut items = items;
    let _end = plus(first, count(items.len())?)?;
    items.shrink_to_fit();
    let ascending = places_in_order(alloc, &items)?;
    Ok(Directory {
        first,
        items,
        ascending,
    })
}
