//! The rows of the nodes of a domain, and their names.

ghost use Rattle.std.specs.Prelude.{◌≡◌, ◌++◌, length, OnOk};
ghost use Rattle.std.specs.List.{list_any};
ghost use Rattle.std.specs.Str.{bytes_eq};
ghost use Rattle.bay_model.specs.Places.{constraint as constraint_of, member_constraints};
ghost use Rattle.name_tree.specs.Attrs.{row_with, rows_with};
ghost use Rattle.name_tree.specs.Nodes.{names_at};

use crate::attrs::own_count;
use crate::largest::largest;
use crate::{NodeName, Spot, behind, front};
use bay_model::{AttrIds, MemberShape, NodeRow};
use name_leaves::{count, plus};
use name_order::name_at;
use octet_rows::Index;
use std::alloc::AllocError;
use sv_base::NodeId;

/// The functional constraint of an item, its second name (IEC 61850-8-1).
fn constraint(item: &[u8]) -> &[u8]
    ensures { result.now ≡ constraint_of item.now }
{
    front(behind(item))
}

/// Whether the members of data sets are of this functional constraint.
fn is_member_constraint(fc: &[u8]) -> bool
    ensures { result ≡ list_any (bytes_eq fc.now) member_constraints }
{
    fc == b"ST".as_slice()
        || fc == b"MX".as_slice()
        || fc == b"SG".as_slice()
        || fc == b"CF".as_slice()
        || fc == b"DC".as_slice()
        || fc == b"SV".as_slice()
        || fc == b"SP".as_slice()
        || fc == b"EX".as_slice()
}

/// The row of a node with these attributes, at an item.
fn row_of(spot: Spot, item: &[u8], number: u32, attrs: AttrIds) -> NodeRow
    ensures { result ≡ row_with number item.now spot attrs }
{
    let allowed = spot.is_data && is_member_constraint(constraint(item));
    NodeRow {
        allowed,
        octets: largest(&spot.kind),
        shape: MemberShape {
            node: NodeId(number),
            kind: spot.kind,
            attrs,
        },
    }
}

/// Adds the rows and the names of the nodes of a domain, at these items, whose attributes stand in a row, the first of them
/// numbered as the next.
pub fn push_nodes(
    rows: &mut Vec<NodeRow>,
    names: &mut Vec<NodeName>,
    domain: u32,
    items: &Index,
    spots: Vec<Spot>,
    attrs: &AttrIds,
) -> Result<(), AllocError>
    ensures rows { OnOk result (rows.new.items ≡ rows.old.items ++ rows_with
        (length rows.old.items) items.now attrs.now spots.items) }
    ensures names { OnOk result (names.new.items ≡ names.old.items
        ++ names_at domain 0 spots.items) }
{
    let mut place = 0;
    let mut first = 0;
    for spot in spots {
        let number = count(rows.len())?;
        let next = plus(first, own_count(spot.what))?;
        let part = attrs.part(first, spot.attrs)?;
        rows.push(row_of(spot, name_at(items, place), number, part))?;
        names.push(NodeName { domain, place })?;
        place = plus(place, 1)?;
        first = next;
    }
    Ok(())
}
