//! Whether a segment belongs to a report that was begun.

ghost use Rattle.std.specs.Prelude.{◌≡◌, ◌↔◌, IsTrue};
ghost use Rattle.report_joining.specs.Joining.{Agrees, AreBelow};

use bay_model::{Member, Report};
use sv_base::{Bits, Octs};

/// Two texts are the same.
fn is_same_text(a: &Octs, b: &Octs) -> bool
    ensures { IsTrue result ↔ a.now ≡ b.now }
{
    a.as_slice() == b.as_slice()
}

/// Two rows of bits are the same.
fn are_same_bits(a: &Bits, b: &Bits) -> bool
    ensures { IsTrue result ↔ a.now ≡ b.now }
{
    a.as_slice() == b.as_slice()
}

/// RptID, OptFlds and DatSet are the same.
fn has_same_texts(a: &Report, b: &Report) -> bool
    ensures { IsTrue result
        ↔ (a.now.rpt_id ≡ b.now.rpt_id) × (a.now.opt_flds ≡ b.now.opt_flds)
        × (a.now.dat_set ≡ b.now.dat_set) }
{
    is_same_text(&a.rpt_id, &b.rpt_id)
        && are_same_bits(&a.opt_flds, &b.opt_flds)
        && is_same_text(&a.dat_set, &b.dat_set)
}

/// SqNum, TimeofEntry and BufOvfl are the same.
fn has_same_place(a: &Report, b: &Report) -> bool
    ensures { IsTrue result ↔ (a.now.sq ≡ b.now.sq) × (a.now.time ≡ b.now.time)
        × (a.now.ovfl ≡ b.now.ovfl) }
{
    a.sq == b.sq && a.time == b.time && a.ovfl == b.ovfl
}

/// EntryID, ConfRev and the count of the data set's members are the same.
fn has_same_numbers(a: &Report, b: &Report) -> bool
    ensures { IsTrue result ↔ (a.now.id ≡ b.now.id) × (a.now.conf_rev ≡ b.now.conf_rev)
        × (a.now.total ≡ b.now.total) }
{
    a.id == b.id && a.conf_rev == b.conf_rev && a.total == b.total
}

/// The fields are the same.
pub fn agrees(a: &Report, b: &Report) -> bool
    ensures { IsTrue result ↔ Agrees a.now b.now }
{
    has_same_texts(a, b) && has_same_place(a, b) && has_same_numbers(a, b)
}

/// The last number of the first row is below the first number of the other.
pub fn are_below(before: &[Member], after: &[Member]) -> bool
    ensures { IsTrue result ↔ AreBelow before.now after.now }
{
    let Some(first) = after.first() else {
        return true;
    };
    match before.last() {
        Some(last) => last.number.0 < first.number.0,
        None => true,
    }
}
