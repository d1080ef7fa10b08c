//! What a node reads as.

ghost use Rattle.std.specs.Prelude.{◌≡◌, ◌<◌, ℕ, map, length, IfOk, Result};
ghost use Rattle.sv_base.specs.declared.value.Value.{Value as ModelValue};
ghost use Rattle.bay_model.specs.Model.{Leaf as ModelLeaf};
ghost use Rattle.bay_model.specs.Lookups.{node_of};
ghost use Rattle.bay_model.specs.Named.{configured_model, nodes};
ghost use Rattle.name_leaves.specs.Leaves.{leaf_seen};
ghost use Rattle.node_reads.specs.Reading.{read_by, leaf_read, leaf_at, all_or_first, typed};
ghost use Rattle.node_reads.specs.Queues.{queued};

use crate::build::build;
use bay_model::access_errors;
use object_model::{Leaf, Model};
use std::alloc::{AllocError, Global};
use std::collections::VecDeque;
use sv_base::{AccessResult, NodeId, TypeOf, Value};

/// The values of leaves, in order, or the code of the first refusal.
type Gathered = Result<VecDeque<Value>, u8>;

/// What the leaves of nodes read as.
pub trait LeafValues {
    /// The value of an attribute or of a component, or the code of its refusal.
    ghost given: { Self → ModelLeaf → Result ModelValue ℕ };

    /// The value of an attribute or of a component of a block; or the code of the refusal (ISO 9506-2, DataAccessError).
    fn value_of(&self, alloc: Global, leaf: Leaf) -> Result<AccessResult, AllocError>
        ensures { IfOk result (λ r. r ≡ given self.now (leaf_seen leaf)) };
}

/// The value of a leaf, or the code of the refusal; what stands under CO is never read.
fn leaf_value<V: LeafValues>(
    alloc: Global,
    values: &V,
    leaf: Leaf,
) -> Result<AccessResult, AllocError>
    ensures { IfOk result (λ r. r ≡ leaf_at (V.given values.now) leaf) }
{
    match leaf {
        Leaf::Withheld => Ok(Err(access_errors::OBJECT_ACCESS_DENIED)),
        _ => values.value_of(alloc, leaf),
    }
}

/// The values of leaves, or the first code.
fn gather<V: LeafValues>(alloc: Global, values: &V, leaves: &[Leaf]) -> Result<Gathered, AllocError>
    ensures { IfOk result (λ r. queued r ≡ all_or_first
        (map (leaf_at (V.given values.now)) leaves.now)) }
{
    let mut all = VecDeque::new(alloc);
    for leaf in leaves {
        match leaf_value(alloc, values, *leaf)? {
            Ok(value) => all.push_back(value)?,
            Err(code) => return Ok(Err(code)),
        }
    }
    Ok(Ok(all))
}

/// The value of a type with the values of its leaves, in the order of the type; or the code of the first leaf that is refused.
pub fn read_type<V: LeafValues>(
    alloc: Global,
    values: &V,
    kind: &TypeOf,
    leaves: &[Leaf],
) -> Result<AccessResult, AllocError>
    ensures { IfOk result (λ r. r ≡ typed kind.now
        (all_or_first (map (leaf_at (V.given values.now)) leaves.now))) }
{
    match gather(alloc, values, leaves)? {
        Ok(all) => {
            let mut rest = all;
            let value = build(alloc, kind, &mut rest)?;
            Ok(Ok(value))
        }
        Err(code) => Ok(Err(code)),
    }
}

/// What a node reads as (ISO 9506-2, Read): its value, or the code of its first refused leaf (DataAccessError). A read of a
/// control's SBO, which selects, is the caller's.
pub fn read_node<V: LeafValues>(
    alloc: Global,
    model: &Model,
    values: &V,
    node: NodeId,
) -> Result<AccessResult, AllocError>
    requires { node.0 < length (nodes model.now) }
    ensures { IfOk result (λ r. r ≡ read_by (leaf_read (V.given values.now))
        (node_of (configured_model model.now) node.0).tree) }
{
    // its attributes are of the types that an attribute may have, none of them a structure
    let _config = model.config();
    read_type(alloc, values, model.type_of(node), model.leaves_of(node))
}
