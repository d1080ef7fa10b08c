//! Passes are dealt to actors.

ghost use Rattle.std.specs.Prelude.{◌≡◌, ◌+◌, ◌<◌, map, IfOk};
ghost use Rattle.std.specs.List.{All};
ghost use Rattle.actor_scripts.specs.Actors.{AreFalling, CanPlay};
ghost use Rattle.script_threads.specs.Dealing.{IsReady, IsRest, IsFresh, Dealt};

use crate::job::Job;
use actor_scripts::Actor;
use bay_histories::StateMachine;
use history_lock::{History, Pass};
use std::alloc::{AllocError, Global};
use sv_io::Gate;

/// The turns of an actor: more than its script has steps.
const TURNS: u64 = 1 << 55;

/// The job of an actor: the pass of the numbers from its own below `above`, and memory for its replies.
fn job_of<M: StateMachine, G: Gate>(
    alloc: Global,
    history: &History<M>,
    pass: &mut Pass<M>,
    above: u32,
    actor: Actor<G>,
) -> Result<Job<M, G>, AllocError>
    requires pass { IsRest history.now above pass.old }
    requires number { (0 < actor.script.actor) × (actor.script.actor < above) }
    requires steps { CanPlay history.now.config actor.script }
    ensures rest { IfOk result (λ _. IsRest history.now actor.script.actor pass.new) }
    ensures fresh { IfOk result (λ job. IsFresh history.now (job.pass, job.script)
        × (job.pass.first + job.pass.count ≡ above)) }
    ensures ready { IfOk result (λ job. (job.script ≡ actor.script)
        × IsReady history.now job.pass job.script job.replies) }
{
    let Actor { script, gate } = actor;
    let replies = Vec::with_capacity(alloc, script.steps.len())?;
    let pass = history.split(pass, above - script.actor, TURNS);
    Ok(Job {
        pass,
        script,
        gate,
        replies,
    })
}

/// The jobs of actors, whose numbers fall from below 33.
pub fn deal<M: StateMachine, G: Gate>(
    alloc: Global,
    history: &History<M>,
    pass: &mut Pass<M>,
    actors: Vec<Actor<G>>,
) -> Result<Vec<Job<M, G>>, AllocError>
    requires pass { IsRest history.now 33 pass.old }
    requires numbers { AreFalling 33 (map (λ a. a.script.actor) actors.items) }
    requires steps { All (λ a. CanPlay history.now.config a.script) actors.items }
    ensures rest { IfOk result (λ _. IsRest history.now pass.new.count pass.new) }
    ensures dealt { IfOk result (λ jobs. Dealt history.now pass.new.count 33
        (map (λ j. (j.pass, j.script)) jobs.items)) }
    ensures scripts { IfOk result (λ jobs. map (λ j. j.script) jobs.items
        ≡ map (λ a. a.script) actors.items) }
    ensures ready { IfOk result
        (λ jobs. All (λ j. IsReady history.now j.pass j.script j.replies) jobs.items) }
{
    let mut above = 33;
    let mut jobs = Vec::new(alloc);
    for actor in actors {
        let number = actor.script.actor;
        let job = job_of(alloc, history, pass, above, actor)?;
        above = number;
        jobs.push(job)?;
    }
    Ok(jobs)
}
