//! A bay of a model, over which actors race.

ghost use Rattle.std.specs.Prelude.{◌≡◌, [], length, map, IfOk};
ghost use Rattle.std.specs.List.{All};
ghost use Rattle.bay_config.specs.Servable.{IsServable};
ghost use Rattle.bay_model.specs.Answers.{History};
ghost use Rattle.bay_histories.specs.Rules.{bay_rules};
ghost use Rattle.bay_core.specs.Standing.{StandsFor};
ghost use Rattle.actor_scripts.specs.Actors.{AreFalling, CanPlay};
ghost use Rattle.actor_scripts.specs.Raced.{IsRaced};

use actor_scripts::Actor;
use bay_core::Bay;
use object_model::Model;
use script_threads::{Raced, race};
use std::alloc::{AllocError, Global};
use std::sync::Wait;
use std::thread::Threads;
use sv_io::Gate;

/// A bay of a model, which stays.
fn open_bay(alloc: Global, model: &Model) -> Result<Bay, AllocError>
    requires { IsServable model.now }
    ensures { IfOk result (λ b. (b.config ≡ model.now) × StandsFor b b.config []) }
{
    let copy = model.copy(alloc)?;
    Bay::open(alloc, copy)
}

/// Opens a bay of a model, and lets actors race over it, each in a thread of its own, one turn a step. An actor stops at its first
/// turn that is refused. The actors' numbers fall, from 32 or below. Fails only when out of memory.
pub fn race_over<R: Threads + Wait + Sync, G: Gate>(
    rt: &R,
    alloc: Global,
    model: &Model,
    actors: Vec<Actor<G>>,
) -> Result<Raced, AllocError>
    requires model { IsServable model.now }
    requires numbers { AreFalling 33 (map (λ a. a.script.actor) actors.items) }
    requires steps { All (λ a. CanPlay model.now a.script) actors.items }
    ensures { IfOk result (λ r. (h : History) × (r.total ≡ length h)
        × IsRaced bay_rules model.now (map (λ a. a.script) actors.items) r.parts.items h) }
{
    match open_bay(alloc, model) {
        Ok(bay) => race(rt, alloc, bay, actors),
        Err(error) => {
            drop(actors);
            Err(error)
        }
    }
}
