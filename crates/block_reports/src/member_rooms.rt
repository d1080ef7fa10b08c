//! The members of a report, in memory that was allocated before.

ghost use Rattle.std.specs.Prelude.{◌≡◌, ◌≤◌, length, vec_capacity, IfOk};
ghost use Rattle.std.specs.List.{All};
ghost use Rattle.bay_model.specs.Named.{configured_model};
ghost use Rattle.bay_model.specs.Reports.{member_of};
ghost use Rattle.set_view.specs.Shapes.{node_numbers};
ghost use Rattle.block_reports.specs.Again.{AreNodes, front_member, reference_by};
ghost use Rattle.block_reports.specs.Blanks.{IsRoom, IsShortSet};

use crate::members::{Front, front_of, reference_in};
use crate::spare::{copied_in, emptied, empty_member};
use bay_model::{Member, Members};
use object_model::Model;
use set_view::SetView;
use std::alloc::{AllocError, Global};
use sv_base::{MemberNo, Octs};

/// Memory for the reference of a member and for its Data.
#[derive(Drop)]
pub(crate) struct MemberRoom {
    pub(crate) reference: Vec<u8>,
    pub(crate) octets: Vec<u8>,
}

/// Memory for one member, in that of another.
fn room_of(spare: Member) -> Result<MemberRoom, AllocError>
    ensures { IfOk result IsRoom }
{
    Ok(MemberRoom {
        reference: emptied(spare.reference.into_vec(), 129)?,
        octets: emptied(spare.octets.into_vec(), 500)?,
    })
}

/// Memory for the members of reports, of which no report makes use by now, and for the octets of an entry in one row: what is kept
/// of one report for the next. Contracts see for how many members.
#[derive(Drop)]
pub struct Rooms {
    pub(crate) free: Vec<MemberRoom>,
    pub(crate) joined: Vec<u8>,
}

impl std::marker::Model for Rooms {
    ghost use Rattle.std.specs.Prelude.{ℕ, length};
    ghost use Rattle.std.specs.List.{All};
    ghost use Rattle.block_reports.specs.Blanks.{IsRoom};

    ghost Value = { ℕ };

    ghost view = { λ r. length r.free.items };

    ghost invariant = { λ r. All IsRoom r.free.items };
}

impl Rooms {
    ghost use Rattle.std.specs.Prelude.{◌≡◌};

    /// Memory for no member. It takes no memory.
    pub fn none(alloc: Global) -> Rooms
        ensures { result ≡ 0 }
    {
        Rooms {
            free: Vec::new(alloc),
            joined: Vec::new(alloc),
        }
    }
}

/// This many buffers: these as far as they go, then those of these members, then new ones.
fn rooms_of(
    alloc: Global,
    free: Vec<MemberRoom>,
    spare: &mut Vec<Member>,
    most: usize,
) -> Result<Vec<MemberRoom>, AllocError>
    requires { All IsRoom free.items }
    ensures rooms { IfOk result (λ r. All IsRoom r.items) }
    ensures count { IfOk result (λ r. length r.items ≡ most) }
{
    let mut rooms = free;
    rooms.truncate(most);
    rooms.reserve(most - rooms.len())?;
    while rooms.len() < most {
        let member = match spare.pop() {
            Some(member) => member,
            None => empty_member(alloc),
        };
        rooms.push(room_of(member)?)?;
    }
    Ok(rooms)
}

/// The reference of a member of a data set, by its number from 1, in memory that is there. It takes no memory.
fn member_reference_in(room: Vec<u8>, model: &Model, set: &SetView<'_>, number: u32) -> Octs
    requires nodes { AreNodes model.now set.now }
    requires short { IsShortSet (configured_model model.now) set.now }
    requires room { 129 ≤ vec_capacity room }
    ensures { result ≡ reference_by (configured_model model.now) (node_numbers set.now) number }
{
    match set.get((number as usize).saturating_sub(1)) {
        Some(shape) => reference_in(room, model, shape.node),
        None => Octs::from_vec(copied_in(room, b"")),
    }
}

/// A member of a report, in memory that is there. It takes no memory.
fn member_in(room: MemberRoom, model: &Model, set: &SetView<'_>, front: &Front<'_>) -> Member
    requires room { IsRoom room }
    requires nodes { AreNodes model.now set.now }
    requires short { IsShortSet (configured_model model.now) set.now }
    requires data { length front.now.octets.now ≤ 500 }
    ensures { result ≡ member_of (configured_model model.now) (node_numbers set.now)
        (front_member front.now) }
{
    Member {
        number: MemberNo(front.number),
        reference: member_reference_in(room.reference, model, set, front.number),
        octets: Octs::from_vec(copied_in(room.octets, front.octets)),
        reasons: front.reasons,
    }
}

/// The members of a report that is being written, and memory for more.
#[derive(Drop)]
pub(crate) struct Row {
    items: Vec<Member>,
    rooms: Vec<MemberRoom>,
}

impl std::marker::Model for Row {
    ghost use Rattle.std.specs.Prelude.{◌≤◌, ◌+◌, length, vec_len, vec_capacity};
    ghost use Rattle.std.specs.List.{All};
    ghost use Rattle.block_reports.specs.Blanks.{Row, IsRoom};

    ghost Value = { Row };

    ghost view = { λ r. record { items = r.items.items; left = length r.rooms.items } };

    ghost invariant = { λ r. All IsRoom r.rooms.items
        × (vec_len r.items + length r.rooms.items ≤ vec_capacity r.items) };
}

impl Row {
    ghost use Rattle.std.specs.Prelude.{◌≡◌, ◌≤◌, ◌<◌, ◌+◌, ◌-◌, ◌++◌, ◌∷◌, [], List, length, IfOk};
    ghost use Rattle.std.specs.List.{All};
    ghost use Rattle.bay_model.specs.Named.{configured_model};
    ghost use Rattle.bay_model.specs.Notes.{Kept};
    ghost use Rattle.bay_model.specs.Reports.{member_of};
    ghost use Rattle.set_view.specs.Shapes.{node_numbers};
    ghost use Rattle.block_reports.specs.Again.{AreNodes, front_member, reported};
    ghost use Rattle.block_reports.specs.Blanks.{IsRoom, IsShortSet, AreFew};

    /// Memory for n members, made of buffers and of the memory of other members as far as they go.
    pub(crate) fn open(
        alloc: Global,
        free: Vec<MemberRoom>,
        spare: Members,
        most: usize,
    ) -> Result<Row, AllocError>
        requires { All IsRoom free.items }
        ensures { IfOk result (λ r. r ≡ record { items = []; left = most }) }
    {
        let mut items = spare.into_vec();
        let rooms = rooms_of(alloc, free, &mut items, most)?;
        let items = emptied(items, most)?;
        Ok(Row { items, rooms })
    }

    /// Adds a member, where there is capacity for one more and for its Data. It takes no memory.
    fn put(&mut self, model: &Model, set: &SetView<'_>, front: &Front<'_>)
        requires nodes { AreNodes model.now set.now }
        requires short { IsShortSet (configured_model model.now) set.now }
        ensures put { 0 < self.old.left → length front.now.octets.now ≤ 500 → self.new ≡ record {
          items = self.old.items ++ member_of (configured_model model.now) (node_numbers set.now)
              (front_member front.now) ∷ [];
          left = self.old.left - 1;
        } }
        ensures kept { length self.new.items + self.new.left
            ≡ length self.old.items + self.old.left }
    {
        if front.octets.len() > 500 {
            return;
        }
        if let Some(room) = self.rooms.pop() {
            let _ = self.items.push(member_in(room, model, set, front));
        }
    }

    /// The members, and the buffers that are left.
    pub(crate) fn into_parts(self) -> (Members, Vec<MemberRoom>)
        ensures members { result.0 ≡ self.items }
        ensures rooms { All IsRoom result.1.items }
        ensures count { length result.1.items ≡ self.left }
    {
        (Members::from_vec(self.items), self.rooms)
    }

    /// The members of a report, from the octets that a block keeps of an entry of a data set whose nodes are the model's, and the
    /// buffers that are left. It takes no memory. Of octets that are not kept ones, or of more members than fit, no more is said
    /// than that no buffer is lost.
    pub(crate) fn filled(
        self,
        model: &Model,
        set: &SetView<'_>,
        octets: &[u8],
    ) -> (Members, Vec<MemberRoom>)
        requires empty { self.items ≡ [] }
        requires nodes { AreNodes model.now set.now }
        requires short { IsShortSet (configured_model model.now) set.now }
        ensures members { (ks : List Kept) → AreFew self.left octets.now ks
            → result.0 ≡ reported model.now set.now ks }
        ensures rooms { All IsRoom result.1.items }
        ensures count { length result.0 + length result.1.items ≡ self.left }
    {
        let mut row = self;
        let mut rest = octets;
        while let Some(front) = front_of(rest) {
            row.put(model, set, &front);
            rest = front.rest;
        }
        row.into_parts()
    }
}
