//! The passes of actors are joined again.

ghost use Rattle.std.specs.Prelude.{◌≡◌, map, IfOk};
ghost use Rattle.std.specs.List.{All};
ghost use Rattle.bay_histories.specs.Histories.{IsLegal};
ghost use Rattle.script_threads.specs.Playing.{IsOf};
ghost use Rattle.script_threads.specs.Races.{Gathers, AllGathered};

use crate::job::Played;
use actor_scripts::Part;
use bay_histories::StateMachine;
use history_lock::{History, Pass};
use std::alloc::{AllocError, Global};

/// Joins a pass, and gives what came of its actor's script.
fn joined<M: StateMachine>(history: &History<M>, pass: &mut Pass<M>, played: Played<M>) -> Part
    requires pass { IsOf history.now pass.old }
    requires played { IsOf history.now played.pass }
    ensures part { result ≡ played.part }
    ensures pass { IsOf history.now pass.new × Gathers pass.old pass.new
        × Gathers played.pass pass.new }
    ensures legal { IsLegal M.rules history.now.config pass.old.seen
        → IsLegal M.rules history.now.config played.pass.seen
        → IsLegal M.rules history.now.config pass.new.seen }
{
    let Played { pass: other, part } = played;
    history.join(pass, other);
    part
}

/// Joins the passes of all actors, and gives what came of their scripts.
pub fn gather<M: StateMachine>(
    alloc: Global,
    history: &History<M>,
    pass: &mut Pass<M>,
    all: Vec<Played<M>>,
) -> Result<Vec<Part>, AllocError>
    requires pass { IsOf history.now pass.old × IsLegal M.rules history.now.config pass.old.seen }
    requires played { All (λ d. IsOf history.now d.pass
        × IsLegal M.rules history.now.config d.pass.seen) all.items }
    ensures parts { IfOk result (λ v. v.items ≡ map (λ d. d.part) all.items) }
    ensures pass { IfOk result (λ _. IsOf history.now pass.new × Gathers pass.old pass.new
        × IsLegal M.rules history.now.config pass.new.seen) }
    ensures joined { IfOk result (λ _. AllGathered pass.new all.items) }
{
    let mut parts = Vec::new(alloc);
    for played in all {
        parts.push(joined(history, pass, played))?;
    }
    Ok(parts)
}
