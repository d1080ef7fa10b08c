//! The attributes of nodes in one row, in the order of the nodes.

ghost use Rattle.std.specs.Prelude.{◌≡◌, ◌++◌, length, IfOk, OnOk};
ghost use Rattle.name_tree.specs.Attrs.{own_attrs, attrs_in_spots};

use crate::Spot;
use bay_model::AttrIds;
use name_leaves::What;
use std::alloc::{AllocError, Global};
use sv_base::AttrId;

/// How many attributes a name is itself.
pub fn own_count(what: What) -> u32
    ensures { result ≡ length (own_attrs what) }
{
    match what {
        What::Attribute(_) => 1,
        _ => 0,
    }
}

fn push_own(attrs: &mut Vec<AttrId>, what: What) -> Result<(), AllocError>
    ensures { OnOk result (attrs.new.items ≡ attrs.old.items ++ own_attrs what) }
{
    match what {
        What::Attribute(number) => {
            attrs.push(AttrId(number))?;
            Ok(())
        }
        _ => Ok(()),
    }
}

/// The attributes of nodes: each stands once, where its own node comes.
pub fn attrs_of(alloc: Global, spots: &[Spot]) -> Result<AttrIds, AllocError>
    ensures { IfOk result (λ l. l ≡ attrs_in_spots spots.now) }
{
    let mut attrs = Vec::with_capacity(alloc, spots.len())?;
    for spot in spots {
        push_own(&mut attrs, spot.what)?;
    }
    AttrIds::from_vec(alloc, attrs)
}
