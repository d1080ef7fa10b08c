//! An actor runs its script.

ghost use Rattle.std.specs.Prelude.{◌≡◌, ◌<◌, ◌≤◌, [], length, vec_capacity};
ghost use Rattle.history_lock.specs.declared.fault.TurnFault.TheVariants.{Ended, Step};
ghost use Rattle.actor_scripts.specs.Stops.{AreFit, StopsAt};
ghost use Rattle.script_threads.specs.Playing.{IsOf, Plays, Went};
ghost use Rattle.script_threads.specs.Dealing.{IsReady};

use crate::job::{Job, Played};
use actor_scripts::{Part, Reply, TimedStep};
use bay_histories::{StateMachine, StepFault};
use history_lock::{History, Pass, TurnFault};
use std::sync::Wait;
use sv_io::Gate;

/// The machine's refusal, where it is one.
fn step_fault(fault: TurnFault) -> StepFault
    requires { fault ≡ Ended → ⊥ }
    ensures { fault ≡ Step result }
{
    match fault {
        TurnFault::Step(fault) => fault,
        TurnFault::Ended => unreachable!(),
    }
}

/// Makes the turns of a script, one a step, until one is refused. Before each the actor passes its gate, with the count of its
/// turns made. It takes no memory but that of the turns.
pub fn play<R: Wait, M: StateMachine, G: Gate>(
    rt: &R,
    history: &History<M>,
    pass: &mut Pass<M>,
    gate: &mut G,
    steps: &[TimedStep],
    replies: &mut Vec<Reply>,
) -> Option<StepFault>
    requires pass { IsOf history.now pass.old }
    requires number { 0 < pass.old.count }
    requires turns { length steps.now ≤ pass.old.left }
    requires steps { AreFit history.now.config steps.now }
    requires room { (replies.old.items ≡ []) × (length steps.now ≤ vec_capacity replies.old) }
    ensures plays { Plays M.rules pass.old steps.now replies.new.items pass.new }
    ensures stops { StopsAt M.rules pass.old.config pass.old.first steps.now
        (length replies.new.items) result pass.new.seen }
{
    for timed in steps {
        gate.pass(replies.len() as u64);
        match history.turn(rt, pass, timed.moment, &timed.step) {
            Ok((answer, place)) => replies.push_reserved(Reply { place, answer }),
            Err(fault) => return Some(step_fault(fault)),
        }
    }
    None
}

/// Plays the script of a job.
pub fn play_job<R: Wait, M: StateMachine, G: Gate>(
    rt: &R,
    history: &History<M>,
    job: Job<M, G>,
) -> Played<M>
    requires { IsReady history.now job.pass job.script job.replies }
    ensures { Went M.rules job.pass job.script result }
{
    let Job {
        mut pass,
        script,
        mut gate,
        mut replies,
    } = job;
    let fault = play(
        rt,
        history,
        &mut pass,
        &mut gate,
        script.steps.as_slice(),
        &mut replies,
    );
    Played {
        pass,
        part: Part {
            actor: script.actor,
            replies,
            fault,
        },
    }
}
