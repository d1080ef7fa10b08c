//! The tree of names of a domain: what is named, name by name, in the order in which lines first name it.

ghost use Rattle.std.specs.Prelude.{◌≡◌, ◌==◌, ◌<◌, ◌≤◌, length, get_or, set, OnOk};
ghost use Rattle.std.specs.List.{after_first, before_first, position_or_len};
ghost use Rattle.bay_model.specs.NameTree.{first_name, rest_of};
ghost use Rattle.name_tree.specs.Groups.{Group, with_cut};

use name_leaves::What;
use std::alloc::{AllocError, Global};
use std::marker::Model;
use sv_base::{Few, TypeOf};

/// What is named by the rest of an item, below some of its names.
#[derive(Drop)]
pub struct Cut<'a> {
    pub rest: &'a [u8],
    pub what: What,
    pub kind: &'a TypeOf,
}

impl<'a> Model for Cut<'a> {
    ghost use Rattle.bay_model.specs.Generated.{Named};

    ghost Value = { Named };

    ghost use Rattle.std.specs.Coded.{codes};
    ghost use Rattle.sv_base.specs.Types.{fields_code};

    ghost coded = { Prim.hlevel (codes, fields_code) };

    ghost use Rattle.name_leaves.specs.Seen.{role_seen};

    ghost view = { λ c. record { item = c.rest.now; role = role_seen c.what; kind = c.kind.now } };
}

impl<'a> Cut<'a> {
    ghost use Rattle.std.specs.Prelude.{◌≡◌};
    ghost use Rattle.bay_model.specs.NameTree.{is_itself as is_itself_in};

    /// Whether nothing is left of the item: it is the name itself.
    pub fn is_itself(&self) -> bool
        ensures { result ≡ is_itself_in self.now }
    {
        self.rest.is_empty()
    }
}

/// The place of the first `$`, and of the end where there is none.
fn name_len(rest: &[u8]) -> usize
    ensures value { result ≡ position_or_len (λ o. o == 36) rest.now }
    ensures within { result ≤ length rest.now }
{
    for (i, octet) in rest.iter().enumerate() {
        if *octet == b'$' {
            return i;
        }
    }
    rest.len()
}

/// What stands before the first `$`.
pub fn front(item: &[u8]) -> &[u8]
    ensures { result.now ≡ before_first (λ o. o == 36) item.now }
{
    &item[..name_len(item)]
}

/// What stands after the first `$`, whose place this is.
fn behind_at(item: &[u8], place: usize) -> &[u8]
    requires { place ≡ position_or_len (λ o. o == 36) item.now }
    ensures { result.now ≡ after_first (λ o. o == 36) item.now }
{
    if place < item.len() {
        &item[place + 1..]
    } else {
        &item[item.len()..]
    }
}

/// What stands after the first `$`.
pub fn behind(item: &[u8]) -> &[u8]
    ensures { result.now ≡ after_first (λ o. o == 36) item.now }
{
    behind_at(item, name_len(item))
}

/// The name up to the first `$`, and what is named after it.
pub fn parted<'a>(cut: &Cut<'a>) -> (&'a [u8], Cut<'a>)
    ensures name { result.0.now ≡ first_name cut.now }
    ensures rest { result.1 ≡ rest_of cut.now }
{
    let item = cut.rest;
    let place = name_len(item);
    let below = Cut {
        rest: behind_at(item, place),
        what: cut.what,
        kind: cut.kind,
    };
    (&item[..place], below)
}

/// A first name, with what stands below it.
#[derive(Drop)]
pub struct Group<'a> {
    pub name: &'a [u8],
    pub cuts: Few<Cut<'a>>,
}

impl<'a> Model for Group<'a> {
    ghost use Rattle.name_tree.specs.Groups.{Group};

    ghost Value = { Group };

    ghost use Rattle.std.specs.Coded.{codes};
    ghost use Rattle.sv_base.specs.Types.{fields_code};

    ghost coded = { Prim.hlevel (codes, fields_code) };

    ghost view = { λ g. record { name = g.name.now; names = g.cuts } };
}

fn push_cut<'a>(alloc: Global, group: &mut Group<'a>, cut: Cut<'a>) -> Result<(), AllocError>
    ensures { OnOk result (group.new ≡ with_cut group.old cut.entry) }
{
    group.cuts.push(alloc, cut)
}

/// Adds what is named to the group at a place.
pub fn push_into<'a>(
    alloc: Global,
    groups: &mut Vec<Group<'a>>,
    place: usize,
    cut: Cut<'a>,
) -> Result<(), AllocError>
    requires { place < length groups.old.items }
    ensures { OnOk result ((d : Group) → groups.new.items ≡ set groups.old.items place
        (with_cut (get_or groups.old.items place d) cut.entry)) }
{
    push_cut(alloc, &mut groups[place], cut)
}
