//! The members of a report, from the octets that a block keeps of an entry.

ghost use Rattle.std.specs.Prelude.{◌≡◌, ◌≤◌, ◌<◌, ◌++◌, ◌/◌, ◌%◌, ℕ, List, length, vec_capacity};
ghost use Rattle.std.specs.Prelude.{IfOk, IfSome, Some, option_map};
ghost use Rattle.ber_grammar.specs.Element.{Element, Spells};
ghost use Rattle.bay_model.specs.Named.{configured_model, nodes as nodes_of};
ghost use Rattle.bay_model.specs.Notes.{Kept};
ghost use Rattle.bay_model.specs.Reports.{member_of, reference_at};
ghost use Rattle.bay_model.specs.Retained.{kept_octets_of};
ghost use Rattle.set_view.specs.Shapes.{node_numbers};
ghost use Rattle.report_block.specs.EntryOctets.{weights as weights_of};
ghost use Rattle.block_reports.specs.Again.{IsOneElement, AreKept, AreNodes, reasons_in};
ghost use Rattle.block_reports.specs.Again.{reference_by, reported, front_member, front_seen};

use crate::spare::{copied_into, emptied, put_member, spare_member};
use bay_model::{Member, Members, Reasons};
use ber_view::first;
use object_model::Model;
use set_view::SetView;
use std::alloc::{AllocError, Global};
use sv_base::{MemberNo, NodeId, Octs};

/// What stands in front of kept octets: a member, and the octets after it.
#[derive(Clone, Copy, Debug)]
pub(crate) struct Front<'a> {
    pub(crate) number: u32,
    pub(crate) reasons: Reasons,
    pub(crate) octets: &'a [u8],
    pub(crate) rest: &'a [u8],
}

/// The reasons whose bits are set in an octet.
fn reasons_of(weights: u8) -> Reasons
    ensures { result ≡ reasons_in weights }
{
    Reasons {
        dchg: weights / 64 % 2 == 1,
        qchg: weights / 32 % 2 == 1,
        dupd: weights / 16 % 2 == 1,
        intg: weights / 8 % 2 == 1,
        gi: weights / 4 % 2 == 1,
    }
}

/// How many octets the first element has; none where the octets begin with none.
fn element_len(octets: &[u8]) -> Option<usize>
    ensures exact { (front rest : List ℕ) (e : Element) → Spells front e
        → octets.now ≡ front ++ rest → result ≡ Some (length front) }
    ensures within { IfSome result (λ n. n ≤ length octets.now) }
{
    match first(octets) {
        Ok((_, rest)) => Some(octets.len() - rest.len()),
        Err(_) => None,
    }
}

/// The member of a number in two octets, of reasons in one, whose Data stands in front of these octets.
fn front_with(high: u8, low: u8, weights: u8, octets: &[u8]) -> Option<Front<'_>>
    ensures exact { (k : Kept) (rest : List ℕ) → IsOneElement k.octets → high ≡ k.number / 256
        → low ≡ k.number % 256 → weights ≡ weights_of k.reasons
        → octets.now ≡ k.octets ++ rest → option_map front_seen result ≡ Some (k, rest) }
    ensures within { IfSome result (λ f. length f.rest.now ≤ length octets.now) }
{
    match element_len(octets) {
        Some(len) => {
            let (octets, rest) = octets.split_at(len);
            Some(Front {
                number: u32::from(high) * 256 + u32::from(low),
                reasons: reasons_of(weights),
                octets,
                rest,
            })
        }
        None => None,
    }
}

/// The first member, and the octets after it.
pub(crate) fn front_of(octets: &[u8]) -> Option<Front<'_>>
    ensures exact { (k : Kept) (rest : List ℕ) → IsOneElement k.octets
        → octets.now ≡ kept_octets_of k ++ rest
        → option_map front_seen result ≡ Some (k, rest) }
    ensures shorter { IfSome result (λ f. length f.rest.now < length octets.now) }
{
    match octets {
        [high, low, _, weights, rest @ ..] => front_with(*high, *low, *weights, rest),
        _ => None,
    }
}

/// The reference `LD/item` of a node, in the memory of another.
fn reference_of(spare: Octs, model: &Model, node: NodeId) -> Result<Octs, AllocError>
    requires { node.0 < length (nodes_of model.now) }
    ensures { IfOk result (λ o. o ≡ reference_at (configured_model model.now) node.0) }
{
    let (domain, item) = (model.domain_of(node), model.item_of(node));
    let octets = emptied(spare.into_vec(), domain.len() + 1 + item.len())?;
    Ok(reference_in(octets, model, node))
}

/// The reference `LD/item` of a node, in memory that is there. It takes no memory.
pub(crate) fn reference_in(room: Vec<u8>, model: &Model, node: NodeId) -> Octs
    requires there { node.0 < length (nodes_of model.now) }
    requires room { length (reference_at (configured_model model.now) node.0) ≤ vec_capacity room }
    ensures { result ≡ reference_at (configured_model model.now) node.0 }
{
    let mut octets = room;
    octets.clear();
    let _ = octets.extend_from_slice(model.domain_of(node));
    let _ = octets.push(b'/');
    let _ = octets.extend_from_slice(model.item_of(node));
    Octs::from_vec(octets)
}

/// The reference of a member of a data set, by its number from 1, in the memory of another.
fn member_reference(
    spare: Octs,
    model: &Model,
    set: &SetView<'_>,
    number: u32,
) -> Result<Octs, AllocError>
    requires { AreNodes model.now set.now }
    ensures { IfOk result (λ o. o ≡ reference_by (configured_model model.now)
        (node_numbers set.now) number) }
{
    match set.get((number as usize).saturating_sub(1)) {
        Some(shape) => reference_of(spare, model, shape.node),
        None => Ok(Octs::from_vec(copied_into(spare.into_vec(), b"")?)),
    }
}

/// The member of a report, in the memory of another.
fn member_from(
    spare: Member,
    model: &Model,
    set: &SetView<'_>,
    front: &Front<'_>,
) -> Result<Member, AllocError>
    requires { AreNodes model.now set.now }
    ensures { IfOk result (λ m. m ≡ member_of (configured_model model.now) (node_numbers set.now)
        (front_member front.now)) }
{
    Ok(Member {
        number: MemberNo(front.number),
        reference: member_reference(spare.reference, model, set, front.number)?,
        octets: Octs::from_vec(copied_into(spare.octets.into_vec(), front.octets)?),
        reasons: front.reasons,
    })
}

/// The members of a report, in the memory of those of another, from the octets that a block keeps of an entry of a data set whose
/// nodes are the model's. Of octets that are not kept ones nothing is said.
pub(crate) fn members_of(
    alloc: Global,
    model: &Model,
    set: &SetView<'_>,
    octets: &[u8],
    spare: Members,
) -> Result<Members, AllocError>
    requires { AreNodes model.now set.now }
    ensures { IfOk result (λ members. (ks : List Kept) → AreKept octets.now ks
        → members ≡ reported model.now set.now ks) }
{
    let mut items = spare.into_vec();
    // A member has at least six of the octets.
    let most = set.len().min(octets.len() / 6);
    items.reserve(most.saturating_sub(items.len()))?;
    let mut rest = octets;
    let mut count = 0;
    while let Some(front) = front_of(rest) {
        let spare = spare_member(alloc, &mut items, count);
        put_member(&mut items, count, member_from(spare, model, set, &front)?)?;
        rest = front.rest;
        count += 1;
    }
    items.truncate(count);
    Ok(Members::from_vec(items))
}
