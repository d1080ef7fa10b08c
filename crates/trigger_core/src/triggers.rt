//! Which members of a data set a point is an event of, and why, by the attributes that it set.

ghost use Rattle.std.specs.Prelude.{◌≡◌, ◌≤◌, ◌<◌, ◌^◌, ◌++◌, ◌∷◌, [], length, unwrap_or};
ghost use Rattle.std.specs.Prelude.{option_copied};
ghost use Rattle.std.specs.Option.{option_map};
ghost use Rattle.bay_model.specs.Notes.{no_reason, union as union_of};
ghost use Rattle.trigger_core.specs.Noted.{AreBelow, change_of as change_in};
ghost use Rattle.trigger_core.specs.Noted.{reasons_by as reasons_under};
ghost use Rattle.trigger_core.specs.Noted.{reasons_in as reasons_among, noted};

use bay_model::{Change, MemberShape, Note, Reasons, Trg};
use set_view::SetView;
use sv_base::{AttrId, MemberNo};

/// No reason.
const NO_REASON: Reasons = Reasons {
    dchg: false,
    qchg: false,
    dupd: false,
    intg: false,
    gi: false,
};

/// The reasons that a change gives under the trigger options: data-change and quality-change where the value differs,
/// data-update in any case (IEC 61850-7-2, TriggerConditions and TrgOps).
pub fn reasons_by(trg: Trg, change: Change) -> Reasons
    ensures { result ≡ reasons_under trg change }
{
    Reasons {
        dchg: change.flags.dchg && trg.dchg && change.differs,
        qchg: change.flags.qchg && trg.qchg && change.differs,
        dupd: change.flags.dupd && trg.dupd,
        intg: false,
        gi: false,
    }
}

/// What the point did to an attribute; none where it didn't set it.
fn change_of(changes: &[Change], attr: AttrId) -> Option<&Change>
    ensures { option_copied result ≡ change_in changes.now attr }
{
    changes.iter().find(|change| change.attr.0 == attr.0)
}

/// Reasons, and those that an attribute gives: no others where the point didn't set it.
fn with_attr(reasons: Reasons, changes: &[Change], trg: Trg, attr: AttrId) -> Reasons
    ensures { result ≡ union_of reasons
        (unwrap_or (option_map (reasons_under trg) (change_in changes.now attr)) no_reason) }
{
    match change_of(changes, attr) {
        Some(change) => reasons.union(reasons_by(trg, *change)),
        None => reasons,
    }
}

/// The reasons of all attributes.
#[tactic(auto, using(crate::proofs::ReasonLaws::one_more, crate::proofs::ReasonLaws::all_done))]
fn reasons_in(changes: &[Change], trg: Trg, attrs: &[AttrId]) -> Reasons
    ensures { result ≡ reasons_among changes.now trg attrs.now }
{
    let mut reasons = NO_REASON;
    for attr in attrs {
        reasons = with_attr(reasons, changes, trg, *attr);
    }
    reasons
}

/// Adds a member after the others, which are lower.
#[tactic(auto, using(crate::proofs::BehindLaws::add_behind))]
fn add_behind(out: &mut Note, member: MemberNo, reasons: Reasons)
    requires below { AreBelow member.0 out.old.items }
    requires room { length out.old.items < out.old.room }
    ensures { out.new ≡ record {
      items = out.old.items ++ record {
        member = member;
        reasons = reasons;
      } ∷ [];
      room = out.old.room;
    } }
{
    out.add(member, reasons);
}

/// Fills the note of a point with the members of a data set that the point is an event of, in the order of the set:
/// each that has an attribute which the point set, and which triggers under the block's trigger options. A member has
/// the reasons of all its attributes (IEC 61850-7-2, ReasonForInclusion).
///
/// `changes` are the attributes that the point set, each once. What stood in `out` goes; it takes no memory.
#[tactic(auto, using(crate::proofs::BehindLaws::below_more, crate::proofs::BehindLaws::below_same))]
pub fn note(changes: &[Change], set: &SetView<'_>, trg: Trg, out: &mut Note)
    requires counted { length set.now < 2 ^ 32 }
    requires room { length set.now ≤ out.old.room }
    ensures { out.new ≡ record { items = noted changes.now trg 1 set.now; room = out.old.room } }
{
    out.clear();
    for place in 0..set.len() {
        let reasons = reasons_in(changes, trg, set.member(place).attrs.as_slice());
        if reasons.is_any() {
            add_behind(out, MemberNo(place as u32 + 1), reasons);
        }
    }
}
