//! A report that is no longer needed: the next one is written in its memory.

ghost use Rattle.std.specs.Prelude.{◌≡◌, ◌≤◌, ◌<◌, ◌++◌, ◌∷◌, ◌+◌, [], take, length, vec_capacity};
ghost use Rattle.std.specs.Prelude.{IfOk, OnOk};

use bay_model::{Member, Members, Reasons, Report};
use std::alloc::{AllocError, Global};
use sv_base::{Bits, BlockNo, MemberNo, Moment, Octs};

/// A copy of values in the memory of others: memory is taken only where they are more than there was capacity for.
pub(crate) fn copied_into<T: Copy>(spare: Vec<T>, values: &[T]) -> Result<Vec<T>, AllocError>
    ensures { IfOk result (λ row. row.items ≡ values.now) }
{
    let row = emptied(spare, values.len())?;
    Ok(copied_in(row, values))
}

/// The memory of other values, with capacity for that many.
pub(crate) fn emptied<T: Drop>(spare: Vec<T>, most: usize) -> Result<Vec<T>, AllocError>
    ensures empty { IfOk result (λ row. row.items ≡ []) }
    ensures room { IfOk result (λ row. most ≤ vec_capacity row) }
{
    let mut row = spare;
    row.clear();
    row.reserve(most)?;
    Ok(row)
}

/// A copy of values in memory that is there, in place of what stood there. It takes no memory.
pub(crate) fn copied_in<T: Copy>(room: Vec<T>, values: &[T]) -> Vec<T>
    requires { length values.now ≤ vec_capacity room }
    ensures { result.items ≡ values.now }
{
    let mut row = room;
    row.clear();
    let _ = row.extend_from_slice(values);
    row
}

/// A member with nothing in it. It takes no memory.
pub(crate) fn empty_member(alloc: Global) -> Member
    ensures { (result.reference ≡ []) × (result.octets ≡ []) }
{
    Member {
        number: MemberNo(0),
        reference: Octs::from_vec(Vec::new(alloc)),
        octets: Octs::from_vec(Vec::new(alloc)),
        reasons: Reasons {
            dchg: false,
            qchg: false,
            dupd: false,
            intg: false,
            gi: false,
        },
    }
}

/// A report with nothing in it. It takes no memory.
pub fn empty_report(alloc: Global) -> Report
    ensures texts { (result.rpt_id ≡ []) × (result.dat_set ≡ []) × (result.opt_flds ≡ []) }
    ensures members { result.members ≡ [] }
{
    Report {
        block: BlockNo(0),
        rpt_id: Octs::from_vec(Vec::new(alloc)),
        opt_flds: Bits::from_vec(Vec::new(alloc)),
        sq: 0,
        time: Moment::first(),
        dat_set: Octs::from_vec(Vec::new(alloc)),
        ovfl: false,
        id: 0,
        conf_rev: 0,
        total: 0,
        members: Members::from_vec(Vec::new(alloc)),
    }
}

/// Takes the member at a place out, where one is; those before it stay. It takes no memory.
pub(crate) fn spare_member(alloc: Global, items: &mut Vec<Member>, place: usize) -> Member
    ensures before { take place items.new.items ≡ take place items.old.items }
    ensures count { length items.new.items ≡ length items.old.items }
{
    let empty = empty_member(alloc);
    if place < items.len() {
        std::mem::replace(&mut items[place], empty)
    } else {
        empty
    }
}

/// Puts a member at a place, in place of the one that is there, or after all.
pub(crate) fn put_member(
    items: &mut Vec<Member>,
    place: usize,
    member: Member,
) -> Result<(), AllocError>
    requires { place ≤ length items.old.items }
    ensures up_to { OnOk result (take (place + 1) items.new.items ≡ take place items.old.items
        ++ member ∷ []) }
    ensures there { OnOk result (place < length items.new.items) }
{
    if place < items.len() {
        items[place] = member;
    } else {
        items.push(member)?;
    }
    Ok(())
}
