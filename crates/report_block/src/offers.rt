//! Which entry is reported next (IEC 61850-7-2, the Report service).

ghost use Rattle.std.specs.Prelude.{◌≡◌, ◌<◌, ℕ, true, None, length, IfSome, if◌then◌else◌};
ghost use Rattle.std.specs.Option.{option_map};
ghost use Rattle.report_block.specs.Offers.{offered, offered_by, no_later, earlier, first_offered};
ghost use Rattle.report_block.specs.Offers.{retained_of};
ghost use Rattle.brcb_state.specs.Changes.{next_to};

use crate::block::ReportBlock;
use brcb_state::{Next, Retained};
use entry_ring::Entry;
use sv_base::AssocNo;

/// An entry that may be reported next: its block, how it is reported, and what is kept of it.
#[derive(Clone, Copy, Debug)]
pub struct Offer<'a> {
    pub block: usize,
    pub next: Next,
    pub entry: Entry<'a>,
}

/// The next entry of a block where the association has enabled it.
fn offer_of<'a>(part: &'a ReportBlock, block: usize, a: AssocNo) -> Option<Offer<'a>>
    ensures offer { option_map offered result ≡ offered_by a block part.now }
    ensures block { IfSome result (λ o. o.block ≡ block) }
{
    let Some(next) = part.block.next(a, part.retained()) else {
        return None;
    };
    match part.ring.entry(next.id) {
        Some(entry) => Some(Offer { block, next, entry }),
        None => None,
    }
}

/// An offer was found, and its entry came to be no later than at a step.
fn is_no_later(found: &Option<Offer<'_>>, step: u64) -> bool
    ensures { result ≡ no_later (option_map offered found.now) step }
{
    match found {
        Some(one) => one.entry.step <= step,
        None => false,
    }
}

/// The association hasn't enabled the block, or the newest of its entries is reported. Where its entries begin is not looked at.
fn is_done(part: &ReportBlock, a: AssocNo) -> bool
    ensures { result ≡ true → next_to a (retained_of part.now) part.now.block ≡ None }
{
    let all = Retained {
        front: 0,
        len: part.ring.len(),
    };
    part.block.next(a, all).is_none()
}

/// The next entry of a block comes before the offer that was found. Its octets are not looked at.
fn comes_before(part: &ReportBlock, a: AssocNo, found: &Option<Offer<'_>>) -> bool
    ensures first { (b : ℕ) → earlier (option_map offered found.now) (offered_by a b part.now) ≡
        (if result then offered_by a b part.now else option_map offered found.now) }
{
    if is_done(part, a) {
        return false;
    }
    let Some(next) = part.block.next(a, part.retained()) else {
        return false;
    };
    match part.ring.step_of(next.id) {
        Some(step) => !is_no_later(found, step),
        None => false,
    }
}

/// Of the next entries of the blocks that an association has enabled, the one that came to be at the earliest step, at a tie
/// that of the lowest block.
pub fn first_offer<'a>(parts: &'a [ReportBlock], a: AssocNo) -> Option<Offer<'a>>
    ensures first { option_map offered result ≡ first_offered a 0 parts.now }
    ensures within { IfSome result (λ o. o.block < length parts.now) }
{
    let mut found = None;
    for block in 0..parts.len() {
        let part = &parts[block];
        if comes_before(part, a, &found) {
            found = offer_of(part, block, a);
        }
    }
    found
}
