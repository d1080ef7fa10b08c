//! What stands at the nodes: their roles, and their leaves in one row, in the order of the nodes.

ghost use Rattle.std.specs.Prelude.{◌≡◌, ◌≤◌, ◌+◌, ◌-◌, take, drop, ◌++◌, ◌∷◌, [], length, OnOk};
ghost use Rattle.name_tree.specs.Stands.{option_list, owns, stands_from};

use crate::Spot;
use name_leaves::{Leaf, What, count, plus};
use std::alloc::AllocError;

/// What a node is, and where its leaves stand in the row of all leaves.
#[derive(Clone, Copy)]
pub struct Stand {
    pub what: What,
    pub first: u32,
    pub end: u32,
}

fn push_own(leaves: &mut Vec<Leaf>, own: Option<Leaf>) -> Result<(), AllocError>
    ensures { OnOk result (leaves.new.items ≡ leaves.old.items ++ option_list own) }
{
    match own {
        Some(leaf) => {
            leaves.push(leaf)?;
            Ok(())
        }
        None => Ok(()),
    }
}

fn push_stand(
    stands: &mut Vec<Stand>,
    leaves: &mut Vec<Leaf>,
    spot: &Spot,
) -> Result<(), AllocError>
    ensures leaves { OnOk result (leaves.new.items ≡ leaves.old.items ++ option_list spot.now.own) }
    ensures stands { OnOk result (stands.new.items ≡ stands.old.items
        ++ record {
          what = spot.now.what;
          first = length leaves.old.items;
          end = length leaves.old.items + spot.now.leaves;
        } ∷ []) }
{
    let first = count(leaves.len())?;
    let end = plus(first, spot.leaves)?;
    stands.push(Stand {
        what: spot.what,
        first,
        end,
    })?;
    push_own(leaves, spot.own)
}

/// Adds what stands at nodes, and their leaves.
pub fn push_stands(
    stands: &mut Vec<Stand>,
    leaves: &mut Vec<Leaf>,
    spots: &[Spot],
) -> Result<(), AllocError>
    ensures leaves { OnOk result (leaves.new.items ≡ leaves.old.items ++ owns spots.now) }
    ensures stands { OnOk result (stands.new.items ≡ stands.old.items ++ stands_from
        (length leaves.old.items) spots.now) }
{
    for spot in spots {
        push_stand(stands, leaves, spot)?;
    }
    Ok(())
}

/// The leaves from one place up to another.
pub fn between(leaves: &[Leaf], first: u32, end: u32) -> &[Leaf]
    requires ordered { first ≤ end }
    requires within { end ≤ length leaves.now }
    ensures { result.now ≡ take (end - first) (drop first leaves.now) }
{
    &leaves[first as usize..end as usize]
}
