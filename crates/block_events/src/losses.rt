//! What the loss of an association makes of the report blocks (IEC 61850-7-2, BRCB attributes RptEna and ResvTms).

ghost use Rattle.std.specs.Prelude.{◌≡◌, ◌≤◌};
ghost use Rattle.block_events.specs.Parting.{after_loss_all};

use report_block::ReportBlock;
use sv_base::{AssocNo, Moment};

/// An association was lost at the moment `now`: the blocks that it has enabled it enables no longer, and of those that it has written
/// it is a writer no longer.
pub fn lose_all(parts: &mut Vec<ReportBlock>, a: AssocNo, now: Moment)
    requires { (1 ≤ a.0) × (a.0 ≤ 64) }
    ensures { parts.new.items ≡ after_loss_all a now parts.old.items }
{
    let mut place = 0;
    while place < parts.len() {
        parts[place].lost(a, now);
        place += 1;
    }
}
