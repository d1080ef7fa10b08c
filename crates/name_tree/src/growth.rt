//! The nodes of a domain, grown out of what its lines name: a node before its parts.

ghost use Rattle.std.specs.Prelude.{◌≡◌, ◌<◌, ◌+◌, ◌++◌, ◌∷◌, [], ◌&&◌, List, set, map, length};
ghost use Rattle.std.specs.Prelude.{IfOk, OnOk};
ghost use Rattle.std.specs.Option.{option_map};
ghost use Rattle.sv_base.specs.Fields.{fields_of};
ghost use Rattle.bay_model.specs.NameTree.{role_of, own_type as own_type_of, grown};
ghost use Rattle.bay_model.specs.Places.{attrs_of_role, is_data_role, type_with, places};
ghost use Rattle.name_leaves.specs.Seen.{role_seen};
ghost use Rattle.name_leaves.specs.Leaves.{leaf_code};
ghost use Rattle.bay_model.specs.NameTree.{nothing};
ghost use Rattle.name_tree.specs.Groups.{Group};
ghost use Rattle.name_tree.specs.Grown.{IsGrown, forest_of, items_of, room, spot, spot_with};
ghost use Rattle.name_tree.specs.Leaves.{own_with, own_count, leaves_with};

use crate::grouping::groups;
use crate::growing::{Cut, parted};
use name_leaves::{Leaf, What, own_leaf, plus};
use octet_rows::Index;
use std::alloc::{AllocError, Global};
use sv_base::{Part1, Parts, ShortOcts, TypeOf};

/// A node but for its item: the type of its Data, how many attributes it has, and whether it holds attributes alone; what it
/// is, its leaf where it has no parts, and how many leaves it has.
#[derive(Drop)]
pub struct Spot {
    pub kind: TypeOf,
    pub attrs: u32,
    pub is_data: bool,
    pub what: What,
    pub own: Option<Leaf>,
    pub leaves: u32,
}

/// The nodes of a domain that have grown so far, their items in the same order, and what stands before the name that grows next.
#[derive(Drop)]
pub struct Growth {
    pub items: Index,
    pub spots: Vec<Spot>,
    path: Vec<u8>,
}

/// Names side by side: what they are as the parts of a structure, how many attributes they have, whether they hold attributes
/// alone, and how many leaves they have.
#[derive(Drop)]
pub struct Grown {
    pub parts: Vec<Part1>,
    pub attrs: u32,
    pub is_data: bool,
    pub leaves: u32,
}

impl Growth {
    ghost use Rattle.std.specs.Prelude.{◌≡◌, [], IfOk};

    /// Nothing has grown, and there is capacity for n nodes, at 24 octets an item.
    pub fn with_capacity(alloc: Global, nodes: usize) -> Result<Self, AllocError>
        ensures items { IfOk result (λ g. g.items ≡ []) }
        ensures spots { IfOk result (λ g. g.spots.items ≡ []) }
        ensures path { IfOk result (λ g. g.path.items ≡ []) }
    {
        Ok(Growth {
            items: Index::with_capacity(alloc, nodes, nodes.saturating_mul(24))?,
            spots: Vec::with_capacity(alloc, nodes)?,
            path: Vec::new(alloc),
        })
    }
}

impl Grown {
    ghost use Rattle.bay_model.specs.NameTree.{nothing};
    ghost use Rattle.name_tree.specs.Grown.{IsGrown};

    /// No names.
    pub fn new(alloc: Global) -> Self
        ensures { IsGrown result nothing }
    {
        Grown {
            parts: Vec::new(alloc),
            attrs: 0,
            is_data: true,
            leaves: 0,
        }
    }
}

/// What the name itself is; a structure where only parts of it are named.
fn what_of(cuts: &[Cut<'_>]) -> What
    ensures { role_seen result ≡ role_of cuts.now }
{
    for cut in cuts {
        if cut.is_itself() {
            return cut.what;
        }
    }
    What::Structure
}

/// The type of the name itself; a structure where only parts of it are named.
fn own_type(alloc: Global, cuts: &[Cut<'_>]) -> Result<TypeOf, AllocError>
    ensures { IfOk result (λ k. k ≡ own_type_of cuts.now) }
{
    for cut in cuts {
        if cut.is_itself() {
            return cut.kind.share();
        }
    }
    Ok(TypeOf::Struct(Parts::from_vec(alloc, Vec::new(alloc))?))
}

/// The type of a name: the structure of its parts, where it has some.
#[tactic(auto, using(crate::proofs::GrowLaws::with_parts, crate::proofs::GrowLaws::without_parts))]
fn type_of(alloc: Global, cuts: &[Cut<'_>], parts: Vec<Part1>) -> Result<TypeOf, AllocError>
    ensures { IfOk result (λ k. k ≡ type_with (own_type_of cuts.now) (fields_of parts.items)) }
{
    if parts.is_empty() {
        return own_type(alloc, cuts);
    }
    Ok(TypeOf::Struct(Parts::from_vec(alloc, parts)?))
}

fn is_data(what: What) -> bool
    ensures { result ≡ is_data_role (role_seen what) }
{
    matches!(what, What::Attribute(_) | What::Structure)
}

/// How many attributes a name has, whose parts have that many.
fn attrs_of(what: What, below: u32) -> Result<u32, AllocError>
    ensures { IfOk result (λ n. n ≡ length (attrs_of_role (role_seen what)) + below) }
{
    match what {
        What::Attribute(_) => plus(below, 1),
        _ => Ok(below),
    }
}

/// The leaf of a name without parts, none where it has some.
#[tactic(auto, using(crate::proofs::LeafLaws::own_with_parts, crate::proofs::LeafLaws::own_without))]
fn own_of(what: What, parts: &Vec<Part1>) -> Option<Leaf>
    ensures { result ≡ option_map leaf_code
        (own_with (role_seen what) (fields_of parts.now.items)) }
{
    if !parts.is_empty() {
        return None;
    }
    own_leaf(what)
}

/// How many leaves a name has, whose parts have that many.
fn leaves_of(own: Option<Leaf>, below: u32) -> Result<u32, AllocError>
    ensures { IfOk result (λ n. n ≡ own_count own + below) }
{
    match own {
        Some(_) => plus(below, 1),
        None => Ok(below),
    }
}

/// Sets the node of a name, of these parts with n attributes and leaves.
#[tactic(auto, using(name_leaves::proofs::LeafLaws::what_back))]
fn set_spot(
    alloc: Global,
    spot: &mut Spot,
    cuts: &[Cut<'_>],
    below: Grown,
) -> Result<(), AllocError>
    ensures { OnOk result (spot.new ≡ spot_with (record { name = []; names = cuts.now })
        (fields_of below.parts.items) below.attrs below.is_data below.leaves) }
{
    let what = what_of(cuts);
    let own = own_of(what, &below.parts);
    spot.what = what;
    spot.own = own;
    spot.leaves = leaves_of(own, below.leaves)?;
    spot.attrs = attrs_of(what, below.attrs)?;
    spot.is_data = is_data(what) && below.is_data;
    spot.kind = type_of(alloc, cuts, below.parts)?;
    Ok(())
}

/// Adds a name to the parts of a structure, by its node.
fn add_part(alloc: Global, all: &mut Grown, name: &[u8], spot: &Spot) -> Result<(), AllocError>
    ensures parts { OnOk result (all.new.parts.items ≡ all.old.parts.items
        ++ record { name = name.now; kind = spot.now.kind } ∷ []) }
    ensures attrs { OnOk result (all.new.attrs ≡ all.old.attrs + spot.now.attrs) }
    ensures is_data { OnOk result (all.new.is_data ≡ all.old.is_data && spot.now.is_data) }
    ensures leaves { OnOk result (all.new.leaves ≡ all.old.leaves + spot.now.leaves) }
{
    let name = ShortOcts::from_slice(alloc, name)?;
    let kind = spot.kind.share()?;
    all.parts.push(Part1 { name, kind })?;
    all.attrs = plus(all.attrs, spot.attrs)?;
    all.is_data = all.is_data && spot.is_data;
    all.leaves = plus(all.leaves, spot.leaves)?;
    Ok(())
}

/// Adds the item of a name and memory for its node, and goes from what stands before the name to what stands before its parts: the
/// name and `$` after it.
fn enter(growth: &mut Growth, name: &[u8]) -> Result<(), AllocError>
    ensures items { OnOk result (growth.new.items ≡ growth.old.items
        ++ (growth.old.path.items ++ name.now) ∷ []) }
    ensures spots { OnOk result (growth.new.spots.items ≡ growth.old.spots.items ++ room ∷ []) }
    ensures path { OnOk result (growth.new.path.items ≡ growth.old.path.items
        ++ name.now ++ 36 ∷ []) }
{
    growth.path.extend_from_slice(name)?;
    growth.items.push(&growth.path)?;
    growth.path.push(b'$')?;
    growth.spots.push(Spot {
        kind: TypeOf::Bool,
        attrs: 0,
        is_data: false,
        what: What::Structure,
        own: None,
        leaves: 0,
    })?;
    Ok(())
}

/// Adds a name, whose parts have grown, and sets its node.
fn add_name(
    alloc: Global,
    spots: &mut Vec<Spot>,
    place: usize,
    all: &mut Grown,
    name: &[u8],
    cuts: &[Cut<'_>],
    below: Grown,
) -> Result<(), AllocError>
    requires { place < length spots.old.items }
    ensures spots { OnOk result (spots.new.items ≡ set spots.old.items place
        (spot_with (record { name = name.now; names = cuts.now })
        (fields_of below.parts.items) below.attrs below.is_data below.leaves)) }
    ensures parts { OnOk result (all.new.parts.items ≡ all.old.parts.items
        ++ record {
          name = name.now;
          kind = type_with (own_type_of cuts.now)
              (fields_of below.parts.items);
        } ∷ []) }
    ensures attrs { OnOk result (all.new.attrs ≡ all.old.attrs +
        (length (attrs_of_role (role_of cuts.now)) + below.attrs)) }
    ensures is_data { OnOk result (all.new.is_data ≡ all.old.is_data
        && (is_data_role (role_of cuts.now) && below.is_data)) }
    ensures leaves { OnOk result (all.new.leaves ≡ all.old.leaves + leaves_with
        (record { name = name.now; names = cuts.now })
        (fields_of below.parts.items) below.leaves) }
{
    let spot = &mut spots[place];
    set_spot(alloc, spot, cuts, below)?;
    add_part(alloc, all, name, spot)
}

/// Adds a name and what grows below it, as many levels deep: its node before those of its parts.
#[cycle(grow)]
fn grow_name(
    alloc: Global,
    growth: &mut Growth,
    all: &mut Grown,
    name: &[u8],
    cuts: &[Cut<'_>],
    levels: usize,
) -> Result<(), AllocError>
    ensures grown { OnOk result ((gs : List Group) → IsGrown all.old (forest_of levels gs)
        → IsGrown all.new (forest_of levels (gs ++ record {
          name = name.now;
          names = cuts.now;
        } ∷ []))) }
    ensures items { OnOk result (growth.new.items ≡ growth.old.items ++ items_of
        (places growth.old.path.items
        (forest_of levels (record { name = name.now; names = cuts.now } ∷ [])))) }
    ensures spots { OnOk result (growth.new.spots.items ≡ growth.old.spots.items ++ map spot
        (places growth.old.path.items
        (forest_of levels (record { name = name.now; names = cuts.now } ∷ [])))) }
    ensures path { OnOk result (growth.new.path.items ≡ growth.old.path.items) }
{
    let (len, place) = (growth.path.len(), growth.spots.len());
    enter(growth, name)?;
    let mut below = Grown::new(alloc);
    grow(alloc, growth, &mut below, cuts, levels)?;
    growth.path.truncate(len);
    add_name(alloc, &mut growth.spots, place, all, name, cuts, below)
}

/// What grows out of what is named, as many levels deep: its nodes, a node before its parts, are added with their items, and
/// what it is as parts of a structure, where there were none.
#[cycle(grow)]
pub fn grow(
    alloc: Global,
    growth: &mut Growth,
    all: &mut Grown,
    cuts: &[Cut<'_>],
    levels: usize,
) -> Result<(), AllocError>
    ensures grown { OnOk result (IsGrown all.old nothing
        → IsGrown all.new (grown levels cuts.now)) }
    ensures items { OnOk result (growth.new.items ≡ growth.old.items ++ items_of
        (places growth.old.path.items (grown levels cuts.now))) }
    ensures spots { OnOk result (growth.new.spots.items ≡ growth.old.spots.items ++ map spot
        (places growth.old.path.items (grown levels cuts.now))) }
    ensures path { OnOk result (growth.new.path.items ≡ growth.old.path.items) }
{
    if levels == 0 {
        return Ok(());
    }
    if let [cut] = cuts {
        if cut.is_itself() {
            return Ok(());
        }
        let (name, below) = parted(cut);
        all.parts.reserve_exact(1)?;
        return grow_name(alloc, growth, all, name, &[below], levels - 1);
    }
    let groups = groups(alloc, cuts)?;
    all.parts.reserve_exact(groups.len())?;
    for group in &groups {
        grow_name(alloc, growth, all, group.name, &group.cuts, levels - 1)?;
    }
    Ok(())
}
