//! The nodes that lines make, to look up what a member of a data set names.

ghost use Rattle.std.specs.Prelude.{◌≡◌, ℕ, List, map, reverse, IfOk};
ghost use Rattle.cfg_lines.specs.Sizes.{children};
ghost use Rattle.std.specs.List.{list_any};
ghost use Rattle.cfg_lines.specs.Keys.{is_among};
ghost use Rattle.cfg_lines.specs.Paths.{above};
ghost use Rattle.cfg_lines.specs.Nodes.{reaches, is_node, is_member_node};
ghost use Rattle.cfg_nodes.specs.Indexed.{is_node_in, is_member_in, parts_in, capped};

use crate::closed::closed_of;
use crate::leaf_list::Leaves;
use crate::leaves::element_octets;
use crate::parts::Parts;
use crate::sizes::Sizes;
use cfg_lines::{Keys, Line};
use octet_rows::Index;
use std::alloc::{AllocError, Global};
use sv_base::Octs;

/// The nodes that members name, each found by its reference.
#[derive(Drop)]
pub struct Nodes<'a> {
    /// Those that no data set may have, with what is above them.
    closed: Keys,
    /// Those without parts that a data set may have, if they are not too large: what members name, and what lies below it.
    sizes: Sizes<'a>,
    /// What is above these.
    parts: Parts<'a>,
}

/// These names and what is above them.
fn above_of(alloc: Global, names: &[Octs]) -> Result<Keys, AllocError>
    ensures { IfOk result (λ keys. (node : List ℕ) → is_among keys node ≡ reaches names.now node) }
{
    let mut keys = Keys::new(alloc);
    for name in names {
        keys.add_with_above(name.as_slice())?;
    }
    Ok(keys)
}

/// The nodes of some leaves, by their octets and by their parts.
fn of_leaves<'a>(alloc: Global, leaves: &'a Leaves) -> Result<(Sizes<'a>, Parts<'a>), AllocError>
    ensures sizes { IfOk result (λ both. both.0.leaves.now ≡ leaves.now) }
    ensures structures { IfOk result (λ both. (node : List ℕ)
        → is_among both.1.structures node ≡ list_any (λ name. is_among (above name) node)
        (map (λ leaf. leaf.name) leaves.now)) }
    ensures parts { IfOk result (λ both. (node : List ℕ)
        → parts_in both.1 node ≡ children (map (λ leaf. leaf.name) leaves.now) node) }
{
    let octets = leaves.len().saturating_mul(32);
    let mut names = Index::with_capacity(alloc, leaves.len(), octets)?;
    let mut parts = Parts::new(alloc);
    for place in 0..leaves.len() {
        let name = leaves.name(place);
        let hash = parts.add_path(alloc, name)?;
        names.push_by(hash, name)?;
    }
    Ok((Sizes { leaves, names }, parts))
}

/// The octets, but 501 for all above 500.
fn cap(octets: u32) -> u32
    ensures { result ≡ capped octets }
{
    if octets > 500 { 501 } else { octets }
}

impl<'a> Nodes<'a> {
    ghost use Rattle.cfg_lines.specs.Nodes.{leaves as leaves_before};
    ghost use Rattle.cfg_lines.specs.Sizes.{octets_of};
    ghost use Rattle.cfg_nodes.specs.Asked.{asked, wanted};
    ghost use Rattle.cfg_nodes.specs.Indexed.{octets_in};
    ghost use Rattle.std.specs.Prelude.{true};

    /// The nodes that lines make, from the first to the last, by those without parts that are wanted. Each that a member names is
    /// found as if all were there.
    pub fn of(alloc: Global, lines: &[Line], leaves: &'a Leaves) -> Result<Self, AllocError>
        requires { leaves.now ≡ wanted (asked (reverse lines.now))
            (leaves_before (reverse lines.now)) }
        ensures nodes { IfOk result (λ nodes. (node : List ℕ)
            → is_among (asked (reverse lines.now)) node ≡ true
            → is_node_in nodes node ≡ is_node (reverse lines.now) node) }
        ensures members { IfOk result (λ nodes. (node : List ℕ)
            → is_among (asked (reverse lines.now)) node ≡ true
            → is_member_in nodes node ≡ is_member_node (reverse lines.now) node) }
    {
        let closed = above_of(alloc, &closed_of(alloc, lines)?)?;
        let (sizes, parts) = of_leaves(alloc, leaves)?;
        Ok(Nodes {
            closed,
            sizes,
            parts,
        })
    }

    /// A node has this reference.
    pub fn has(&self, node: &[u8]) -> bool
        ensures { result ≡ is_node_in self.now node.now }
    {
        self.sizes.of_node(node).is_some() || self.parts.has(node) || self.closed.has(node)
    }

    /// The most octets of the Data of a node, but 501 for all above 500. It goes no deeper than the number says.
    fn octets(&self, depth: u32, node: &[u8]) -> u32
        ensures { result ≡ capped (octets_of depth (octets_in self.now.sizes)
            (parts_in self.now.parts) node.now) }
    {
        if depth == 0 {
            return 0;
        }
        if let Some(octets) = self.sizes.of_node(node) {
            return cap(octets);
        }
        let Some(parts) = self.parts.of_node(node) else {
            return cap(element_octets(0));
        };
        let mut sum = 0;
        for part in parts.names() {
            sum += self.octets(depth - 1, part);
            if sum > 500 {
                return 501;
            }
        }
        cap(element_octets(sum))
    }

    /// A data set may have the node of this reference.
    pub fn may_be_member(&self, node: &[u8]) -> bool
        ensures { result ≡ is_member_in self.now node.now }
    {
        !self.closed.has(node) && self.octets(10, node) <= 500
    }
}
