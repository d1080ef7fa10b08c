//! The members of a data set, lent.

use bay_model::{MemberShape, NodeRow};
use std::marker::Model;
use sv_base::NodeId;

/// The members of a data set that is there, lent: the numbers of its nodes, and the rows that these stand for. Contracts see
/// the shapes of the members, in the order of the set.
#[derive(Drop)]
pub struct SetView<'a> {
    nodes: &'a [NodeId],
    rows: &'a [NodeRow],
}

impl<'a> Model for SetView<'a> {
    ghost use Rattle.std.specs.Prelude.{List, length};
    ghost use Rattle.bay_model.specs.declared.tables.MemberShape.{MemberShape};
    ghost use Rattle.set_view.specs.Shapes.{AreThere, shapes_of};

    ghost Value = { List MemberShape };

    ghost use Rattle.std.specs.Coded.{codes};
    ghost use Rattle.sv_base.specs.Types.{fields_code};

    ghost coded = { Prim.hlevel (codes, fields_code) };

    ghost view = { λ s. shapes_of s.rows.now s.nodes.now };

    ghost invariant = { λ s. AreThere (length s.rows.now) s.nodes.now };
}

impl<'a> SetView<'a> {
    ghost use Rattle.std.specs.Prelude.{◌≡◌, ◌==◌, ◌<◌, length, slice_get, slice_index_or};
    ghost use Rattle.std.specs.Prelude.{option_copied};
    ghost use Rattle.set_view.specs.Shapes.{AreThere, no_shape, shapes_of};

    /// The members whose nodes have these numbers.
    pub fn new(nodes: &'a [NodeId], rows: &'a [NodeRow]) -> SetView<'a>
        requires { AreThere (length rows.now) nodes.now }
        ensures { result ≡ shapes_of rows.now nodes.now }
    {
        SetView { nodes, rows }
    }

    /// How many members there are.
    pub fn len(&self) -> usize
        ensures { result ≡ length self.now }
    {
        self.nodes.len()
    }

    /// There is no member.
    pub fn is_empty(&self) -> bool
        ensures { result ≡ (length self.now == 0) }
    {
        self.nodes.is_empty()
    }

    /// The member at a place, counted from 0.
    pub fn member(&self, place: usize) -> &'a MemberShape
        requires { place < length self.now }
        ensures { result.now ≡ slice_index_or self.now place no_shape }
    {
        let (nodes, rows) = (self.nodes, self.rows);
        let node = nodes[place];
        &rows[node.0 as usize].shape
    }

    /// The member at a place, counted from 0; none exactly where there are no more than that.
    pub fn get(&self, place: usize) -> Option<&'a MemberShape>
        ensures { option_copied result ≡ slice_get self.now place }
    {
        if place < self.len() {
            Some(self.member(place))
        } else {
            None
        }
    }
}
