//! What is named, in groups by the first name.

ghost use Rattle.std.specs.Prelude.{◌≡◌, ◌++◌, ◌∷◌, [], map, IfOk, OnOk};
ghost use Rattle.name_tree.specs.Groups.{groups as groups_in, group_name, put as put_in};
ghost use Rattle.name_tree.specs.Groups.{with_named, AreGroups, PlacesFront};
ghost use Rattle.name_leaves.specs.Indexes.{PlacesOf};
ghost use Rattle.name_leaves.specs.Numbers.{number_in};

use crate::growing::{Cut, Group, parted, push_into};
use name_leaves::Places;
use std::alloc::{AllocError, Global};
use sv_base::Few;

/// The group of a name that one is named below.
fn group_of<'a>(name: &'a [u8], cut: Cut<'a>) -> Group<'a>
    ensures { result ≡ record { name = name.now; names = cut.entry ∷ [] } }
{
    let cuts = Few::one(cut);
    Group { name, cuts }
}

fn push_group<'a>(
    groups: &mut Vec<Group<'a>>,
    name: &'a [u8],
    cut: Cut<'a>,
) -> Result<(), AllocError>
    ensures { OnOk result (groups.new.items ≡ groups.old.items ++ record {
      name = name.now;
      names = cut.entry ∷ [];
    } ∷ []) }
{
    groups.push(group_of(name, cut))?;
    Ok(())
}

/// The place of the group of a name, none where there is none. The last group's name, which stands in no group before it, is
/// looked at first.
fn place_of(places: &Places<'_>, groups: &[Group<'_>], name: &[u8]) -> Option<usize>
    requires groups { AreGroups groups.now }
    requires placed { PlacesFront places.now (map group_name groups.now) }
    ensures { result ≡ number_in (map group_name groups.now) name.now }
{
    let [front @ .., last] = groups else {
        return None;
    };
    if name == last.name {
        return Some(front.len());
    }
    places.place_of(name)
}

/// Gives the last group's name its place.
#[tactic(auto, using(crate::proofs::PutLaws::empty_front))]
fn place_last<'a>(places: &mut Places<'a>, groups: &[Group<'a>]) -> Result<(), AllocError>
    requires groups { AreGroups groups.now }
    requires placed { PlacesFront places.old (map group_name groups.now) }
    ensures { OnOk result (PlacesOf places.new (map group_name groups.now)) }
{
    let [front @ .., last] = groups else {
        return Ok(());
    };
    places.push(last.name, front.len())?;
    Ok(())
}

/// Adds what stands below a name to its group, by the places of the names.
fn put<'a>(
    alloc: Global,
    places: &mut Places<'a>,
    groups: &mut Vec<Group<'a>>,
    name: &'a [u8],
    cut: Cut<'a>,
) -> Result<(), AllocError>
    requires groups { AreGroups groups.old.items }
    requires placed { PlacesFront places.old (map group_name groups.old.items) }
    ensures placed { OnOk result (PlacesFront places.new (map group_name groups.new.items)) }
    ensures groups { OnOk result (groups.new.items ≡ put_in groups.old.items name.now cut.entry) }
{
    match place_of(places, groups, name) {
        Some(place) => {
            push_into(alloc, groups, place, cut)?;
            Ok(())
        }
        None => {
            place_last(places, groups)?;
            push_group(groups, name, cut)?;
            Ok(())
        }
    }
}

/// Adds what is named to its group; the name itself has none.
fn put_cut<'a>(
    alloc: Global,
    places: &mut Places<'a>,
    groups: &mut Vec<Group<'a>>,
    cut: &Cut<'a>,
) -> Result<(), AllocError>
    requires groups { AreGroups groups.old.items }
    requires placed { PlacesFront places.old (map group_name groups.old.items) }
    ensures placed { OnOk result (PlacesFront places.new (map group_name groups.new.items)) }
    ensures groups { OnOk result (groups.new.items ≡ with_named groups.old.items cut.now) }
{
    if cut.is_itself() {
        return Ok(());
    }
    let (name, below) = parted(cut);
    put(alloc, places, groups, name, below)
}

/// One group for each first name, in the order in which they first stand.
pub fn groups<'a>(alloc: Global, cuts: &[Cut<'a>]) -> Result<Vec<Group<'a>>, AllocError>
    ensures { IfOk result (λ v. v.items ≡ groups_in cuts.now) }
{
    let mut places = Places::new(alloc);
    let mut groups = Vec::new(alloc);
    for cut in cuts {
        put_cut(alloc, &mut places, &mut groups, cut)?;
    }
    Ok(groups)
}
