//! The most octets of the Data of nodes without parts, by their references.

ghost use Rattle.std.specs.Prelude.{◌≡◌, map};

use crate::leaf_list::Leaves;
use octet_rows::Index;

/// The octets of the nodes of some leaves; of two of one name those of the first.
#[derive(Drop)]
pub struct Sizes<'a> {
    pub leaves: &'a Leaves,
    pub names: Index,
    ghost named: { names ≡ map (λ leaf. leaf.name) leaves.now },
}

impl<'a> Sizes<'a> {
    ghost use Rattle.std.specs.Prelude.{◌≡◌};
    ghost use Rattle.cfg_nodes.specs.Indexed.{octets_in};

    /// The octets of a node; none where it has parts, or isn't there.
    pub fn of_node(&self, node: &[u8]) -> Option<u32>
        ensures { result ≡ octets_in self.now node.now }
    {
        let place = self.names.place_of(node)?;
        self.leaves.octets(place as usize)
    }
}
