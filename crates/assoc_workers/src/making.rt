//! A turn at the clock's moment.

ghost use Rattle.std.specs.Prelude.{◌≡◌, ℕ, true};
ghost use Rattle.object_model.specs.Fits.{fits as fits_in};
ghost use Rattle.history_lock.specs.Passes.{Turned, IsLeanTurn, IsProcessTurn};
ghost use Rattle.assoc_workers.specs.Made.{MadeOne, IsOf};

use bay_histories::StateMachine;
use bay_model::{Answer, Step};
use history_lock::{History, Pass, TurnFault};
use std::sync::Wait;
use sv_io::Clock;

/// Makes a turn at the clock's moment.
pub fn make<R: Wait, M: StateMachine, C: Clock>(
    rt: &R,
    history: &History<M>,
    pass: &mut Pass<M>,
    step: &Step,
    clock: &C,
) -> Result<(Answer, u64), TurnFault>
    requires pass { IsOf history.now pass.old }
    requires fits { fits_in history.now.config step.now ≡ true }
    ensures made { MadeOne M.rules (C.moment clock.now) step.now result pass.old pass.new }
    ensures turned { (moment : ℕ) × Turned M.rules pass.old moment step.now result pass.new }
    ensures of { IsOf history.now pass.new }
    ensures lean { IsLeanTurn step.now result }
    ensures process { IsProcessTurn step.now result }
{
    let moment = clock.now();
    history.turn(rt, pass, moment, step)
}
