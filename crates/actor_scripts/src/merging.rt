//! The parts of all actors become one list, in the order of their places.

ghost use Rattle.std.specs.Prelude.{◌≡◌, List, length, map, set, Some, IfOk};
ghost use Rattle.sv_base.specs.declared.config.Config.{Config};
ghost use Rattle.bay_model.specs.Answers.{History};
ghost use Rattle.bay_histories.specs.Rules.{Rules};
ghost use Rattle.actor_scripts.specs.declared.made.Made.{Made as MadeStep};
ghost use Rattle.actor_scripts.specs.Scripts.{replies_of, made_of};
ghost use Rattle.actor_scripts.specs.Merging.{AreRight, AreOf};

use crate::made::Made;
use crate::part::Part;
use std::alloc::{AllocError, Global};
use std::mem::replace;

/// This many places with nothing in them.
fn empty_places(alloc: Global, total: u64) -> Result<Vec<Option<Made>>, AllocError>
    ensures total { IfOk result (λ v. length v.items ≡ total) }
    ensures empty { IfOk result (λ v. (ms : List MadeStep) → AreRight ms v.items) }
{
    let mut places = Vec::new(alloc);
    for _ in 0..total {
        places.push(None)?;
    }
    Ok(places)
}

/// Puts a step into its place, if it is there.
#[tactic(auto, using(crate::proofs::Lists::set_past))]
fn put(places: &mut [Option<Made>], place: u64, made: Made)
    ensures { places.new ≡ set places.old place (Some made) }
{
    let at = place as usize;
    if at < places.len() {
        drop(replace(&mut places[at], Some(made)));
    } else {
        drop(made);
    }
}

/// Puts the steps of a part into their places.
fn put_part(places: &mut [Option<Made>], part: Part)
    ensures length { length places.new ≡ length places.old }
    ensures right { (rules : Rules) (c : Config) (h : History)
        → part.replies.items ≡ replies_of rules c part.actor h
        → AreRight (made_of rules c h) places.old → AreRight (made_of rules c h) places.new }
{
    let Part {
        actor,
        replies,
        fault: _,
    } = part;
    let mut index = 0u64;
    for reply in replies {
        put(
            places,
            reply.place,
            Made {
                actor,
                index,
                answer: reply.answer,
            },
        );
        index += 1;
    }
}

/// The steps in the places, in order, if each has one.
fn filled(alloc: Global, places: Vec<Option<Made>>) -> Result<Vec<Made>, AllocError>
    ensures { IfOk result (λ v. map Some v.items ≡ places.items) }
{
    let mut steps = Vec::new(alloc);
    for place in places {
        let Some(made) = place else {
            return Err(AllocError);
        };
        steps.push(made)?;
    }
    Ok(steps)
}

/// The steps of a history in its order, each with its actor, its index in the actor's script and its answer, from what came of
/// the scripts. It takes time in the number of steps alone. Fails only when out of memory, where the parts are those of one
/// history.
pub fn merge(alloc: Global, parts: Vec<Part>, total: u64) -> Result<Vec<Made>, AllocError>
    ensures { IfOk result (λ v. (rules : Rules) (c : Config) (h : History) → total ≡ length h
        → AreOf rules c h parts.items
        → v.items ≡ made_of rules c h) }
{
    let mut places = empty_places(alloc, total)?;
    for part in parts {
        put_part(places.as_mut_slice(), part);
    }
    filled(alloc, places)
}
