//! An association is given up.

ghost use Rattle.std.specs.Prelude.{◌≡◌, List, true};
ghost use Rattle.object_model.specs.Fits.{is_association};
ghost use Rattle.assoc_workers.specs.Made.{MadeStep, Moved, AreAt, HasGivenUp, IsOf};

use crate::making::make;
use bay_histories::StateMachine;
use bay_model::Step;
use history_lock::{History, Pass};
use std::sync::Wait;
use sv_base::AssocNo;
use sv_io::Clock;

/// Loses the association, where it is open still and the actor may: a refusal changes nothing.
pub fn lose<R: Wait, M: StateMachine, C: Clock>(
    rt: &R,
    history: &History<M>,
    pass: &mut Pass<M>,
    a: AssocNo,
    clock: &C,
)
    requires pass { IsOf history.now pass.old }
    requires number { is_association a.0 ≡ true }
    ensures { (last : List MadeStep) × Moved M.rules pass.old last pass.new
        × HasGivenUp M.rules a last pass.new × AreAt (C.moment clock.now) last }
{
    let _ = make(rt, history, pass, &Step::Lost(a), clock);
}
