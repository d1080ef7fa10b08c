//! Scripts race as threads over one state machine.

ghost use Rattle.std.specs.Prelude.{◌≡◌, ◌<◌, ℕ, [], map, length, IfOk, slice_index_or};
ghost use Rattle.std.specs.List.{All};
ghost use Rattle.bay_model.specs.Answers.{History as TheHistory};
ghost use Rattle.history_lock.specs.Passes.{Known, HasNumber, first_of};
ghost use Rattle.script_threads.specs.declared.job.Played.{Played as TheGiven};
ghost use Rattle.actor_scripts.specs.declared.script.Script.{Script as TheScript};
ghost use Rattle.script_threads.specs.Playing.{Went};
ghost use Rattle.actor_scripts.specs.Actors.{AreFalling, CanPlay};
ghost use Rattle.script_threads.specs.Dealing.{IsRest, IsReady};
ghost use Rattle.actor_scripts.specs.Raced.{IsRaced};
ghost use Rattle.script_threads.specs.Races.{HasNoOthers};

use crate::dealing::deal;
use crate::gathering::gather;
use crate::job::{Job, Played};
use crate::playing::play_job;
use actor_scripts::{Actor, Part};
use bay_histories::StateMachine;
use history_lock::{History, Pass};
use std::alloc::{AllocError, Global};
use std::sync::Wait;
use std::thread::{Threads, map_vec};
use sv_io::Gate;

/// How many numbers of actors there are: 0 is the caller's, 1 to 16 are associations, and 17 to 32 scripts of the process.
pub const ACTORS: u32 = 33;

/// What came of a race.
#[derive(Drop)]
pub struct Raced {
    /// How many steps the history has.
    pub total: u64,
    /// What came of each script, in the order of the actors.
    pub parts: Vec<Part>,
}

/// Each actor runs in a thread of its own.
fn play_all<R: Threads + Wait + Sync, M: StateMachine, G: Gate>(
    rt: &R,
    history: &History<M>,
    jobs: Vec<Job<M, G>>,
) -> Result<Vec<Played<M>>, AllocError>
    requires { All (λ j. IsReady history.now j.pass j.script j.replies) jobs.items }
    ensures len { IfOk result (λ v. length v.items ≡ length jobs.items) }
    ensures each { IfOk result (λ v. (i : ℕ) (x : Known × TheScript) (d : TheGiven M)
        → i < length jobs.items
        → Went M.rules (slice_index_or (map (λ j. (j.pass, j.script)) jobs.items) i x).0
        (slice_index_or (map (λ j. (j.pass, j.script)) jobs.items) i x).1
        (slice_index_or v.items i d)) }
{
    map_vec(
        rt,
        jobs,
        &|job: Job<M, G>| -> Played<M>
            requires { IsReady history.now job.pass job.script job.replies }
            ensures { Went M.rules job.pass job.script result }
        { play_job(rt, history, job) },
    )
}

/// Deals the numbers of a history that has no step, lets each actor run in a thread of its own, and joins their passes: what came
/// of the scripts.
fn play_scripts<R: Threads + Wait + Sync, M: StateMachine, G: Gate>(
    rt: &R,
    alloc: Global,
    history: &History<M>,
    pass: &mut Pass<M>,
    actors: Vec<Actor<G>>,
) -> Result<Vec<Part>, AllocError>
    requires pass { IsRest history.now 33 pass.old }
    requires numbers { AreFalling 33 (map (λ a. a.script.actor) actors.items) }
    requires steps { All (λ a. CanPlay history.now.config a.script) actors.items }
    ensures numbers { IfOk result (λ _. (pass.new.table ≡ history.now.table) × ((k : ℕ) → k < 33
        → HasNumber pass.new k)) }
    ensures raced { IfOk result (λ v. HasNoOthers pass.new.seen
        → IsRaced M.rules history.now.config
        (map (λ a. a.script) actors.items) v.items pass.new.seen) }
{
    let jobs = deal(alloc, history, pass, actors)?;
    let all = play_all(rt, history, jobs)?;
    gather(alloc, history, pass, all)
}

/// Runs scripts over a history that has no step.
fn run<R: Threads + Wait + Sync, M: StateMachine, G: Gate>(
    rt: &R,
    alloc: Global,
    history: History<M>,
    pass: Pass<M>,
    actors: Vec<Actor<G>>,
) -> Result<Raced, AllocError>
    requires actors { history.actors ≡ 33 }
    requires pass { pass ≡ first_of history }
    requires numbers { AreFalling 33 (map (λ a. a.script.actor) actors.items) }
    requires steps { All (λ a. CanPlay history.config a.script) actors.items }
    ensures { IfOk result (λ r. (h : TheHistory) × (r.total ≡ length h)
        × IsRaced M.rules history.config (map (λ a. a.script) actors.items) r.parts.items h) }
{
    let mut pass = pass;
    let parts = match play_scripts(rt, alloc, &history, &mut pass, actors) {
        Ok(parts) => parts,
        Err(error) => {
            drop(history);
            drop(pass);
            return Err(error);
        }
    };
    let total = history.close(pass);
    Ok(Raced { total, parts })
}

/// Runs scripts over a machine that has made no step, each actor in a thread of its own, one turn a step. An actor stops at its first
/// turn that is refused. The actors' numbers fall, from 32 or below; of what they do at once nothing is claimed.
///
/// Fails only when out of memory; out of memory in a turn is that turn's fault.
pub fn race<R: Threads + Wait + Sync, M: StateMachine, G: Gate>(
    rt: &R,
    alloc: Global,
    machine: M,
    actors: Vec<Actor<G>>,
) -> Result<Raced, AllocError>
    requires machine { M.stands machine (M.config machine) [] }
    requires numbers { AreFalling 33 (map (λ a. a.script.actor) actors.items) }
    requires steps { All (λ a. CanPlay (M.config machine) a.script) actors.items }
    ensures { IfOk result (λ r. (h : TheHistory) × (r.total ≡ length h)
        × IsRaced M.rules (M.config machine) (map (λ a. a.script) actors.items) r.parts.items h) }
{
    let (history, pass) = History::new(alloc, machine, ACTORS)?;
    run(rt, alloc, history, pass, actors)
}
