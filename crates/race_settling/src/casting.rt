//! The actors of a plan, and the lines of their scripts.

ghost use Rattle.std.specs.Prelude.{◌≡◌, ◌≤◌, ◌++◌, ◌∷◌, [], None, Some, map, length, slice_set};
ghost use Rattle.std.specs.Prelude.{IfOk, OnOk};
ghost use Rattle.race_records.specs.Merged.{lines_in, book_seen};
ghost use Rattle.race_settling.specs.Casting.{script_steps, role_steps, script_place, role_place};
ghost use Rattle.race_settling.specs.Casting.{AreSeats, HasGate, HaveGates, without_gate};
ghost use Rattle.race_settling.specs.Casting.{cast_one, cast_from, IsCast};

use actor_scripts::{Actor, Script as ActorScript, TimedStep};
use script_plans::{Script, StepLine};
use std::alloc::{AllocError, Global};
use std::mem::replace;
use sv_io::Gate;

/// What an actor is to do: its steps, and the place of its script in the input.
#[derive(Drop)]
struct Role {
    place: u32,
    steps: Vec<TimedStep>,
}

/// The role of an actor and the lines of its script, if it has one.
fn split(alloc: Global, slot: Option<Script>) -> (Option<Role>, Vec<StepLine>)
    ensures role { role_steps result.0 ≡ script_steps slot }
    ensures place { role_place result.0 ≡ script_place slot }
    ensures lines { result.1.items ≡ lines_in slot }
{
    match slot {
        Some(script) => {
            let place = script.place();
            let (lines, steps) = script.into_parts();
            (Some(Role { place, steps }), lines)
        }
        None => (None, Vec::new(alloc)),
    }
}

/// Adds the role of one actor more, and the lines of its script.
fn add_role(
    alloc: Global,
    roles: &mut Vec<Option<Role>>,
    book: &mut Vec<Vec<StepLine>>,
    slot: Option<Script>,
) -> Result<(), AllocError>
    ensures roles { OnOk result (map role_steps roles.new.items ≡ map role_steps roles.old.items
        ++ script_steps slot ∷ []) }
    ensures places { OnOk result (map role_place roles.new.items ≡ map role_place roles.old.items
        ++ script_place slot ∷ []) }
    ensures book { OnOk result (book_seen book.new.items ≡ book_seen book.old.items
        ++ lines_in slot ∷ []) }
{
    let (role, lines) = split(alloc, slot);
    if roles.push(role).is_err() {
        drop(lines);
        return Err(AllocError);
    }
    book.push(lines)?;
    Ok(())
}

/// Adds the roles of all actors, and the lines of their scripts.
fn add_roles(
    alloc: Global,
    roles: &mut Vec<Option<Role>>,
    book: &mut Vec<Vec<StepLine>>,
    slots: Vec<Option<Script>>,
) -> Result<(), AllocError>
    requires none { (roles.old.items ≡ []) × (book.old.items ≡ []) }
    ensures roles { OnOk result (map role_steps roles.new.items ≡ map script_steps slots.items) }
    ensures places { OnOk result (map role_place roles.new.items ≡ map script_place slots.items) }
    ensures book { OnOk result (book_seen book.new.items ≡ map lines_in slots.items) }
{
    for slot in slots {
        add_role(alloc, roles, book, slot)?;
    }
    Ok(())
}

/// The roles of actors and the lines of their scripts, both by the actors' numbers.
fn part(
    alloc: Global,
    slots: Vec<Option<Script>>,
) -> Result<(Vec<Option<Role>>, Vec<Vec<StepLine>>), AllocError>
    ensures roles { IfOk result (λ r. map role_steps r.0.items ≡ map script_steps slots.items) }
    ensures places { IfOk result (λ r. map role_place r.0.items ≡ map script_place slots.items) }
    ensures book { IfOk result (λ r. book_seen r.1.items ≡ map lines_in slots.items) }
{
    let mut roles = Vec::new(alloc);
    let mut book = Vec::new(alloc);
    match add_roles(alloc, &mut roles, &mut book, slots) {
        Ok(()) => Ok((roles, book)),
        Err(error) => {
            drop(roles);
            drop(book);
            Err(error)
        }
    }
}

/// Each gate in a place of its own.
fn placed<G: Gate>(alloc: Global, gates: Vec<G>) -> Result<Vec<Option<G>>, AllocError>
    ensures { IfOk result (λ v. v.items ≡ map Some gates.items) }
{
    let mut places = Vec::new(alloc);
    for gate in gates {
        places.push(Some(gate))?;
    }
    Ok(places)
}

/// Takes the gate of a script.
fn take_gate<G: Gate>(gates: &mut Vec<Option<G>>, place: u32) -> G
    requires { HasGate gates.old.items place }
    ensures { gates.new.items ≡ slice_set gates.old.items place None }
{
    let Some(gate) = gates.get_mut(place as usize) else {
        unreachable!()
    };
    let Some(gate) = replace(gate, None) else {
        unreachable!()
    };
    gate
}

/// Adds the actor of this number, if it has a role.
fn add_actor<G: Gate>(
    gates: &mut Vec<Option<G>>,
    actors: &mut Vec<Actor<G>>,
    actor: u32,
    role: Option<Role>,
) -> Result<(), AllocError>
    requires gates { HaveGates gates.old.items (role_place role ∷ []) }
    ensures actors { OnOk result (map (λ a. a.script) actors.new.items
        ≡ map (λ a. a.script) actors.old.items ++ cast_one actor role) }
    ensures gates { OnOk result (gates.new.items ≡ without_gate gates.old.items (role_place role)) }
{
    let Some(Role { place, steps }) = role else {
        return Ok(());
    };
    let gate = take_gate(gates, place);
    let script = ActorScript { actor, steps };
    actors.push(Actor { script, gate })?;
    Ok(())
}

/// Adds the actors of these roles, the one with the highest number first.
fn add_actors<G: Gate>(
    gates: &mut Vec<Option<G>>,
    actors: &mut Vec<Actor<G>>,
    roles: &mut Vec<Option<Role>>,
) -> Result<(), AllocError>
    requires few { length roles.old.items ≤ 33 }
    requires none { actors.old.items ≡ [] }
    requires seats { AreSeats (map role_place roles.old.items) }
    requires gates { HaveGates gates.old.items (map role_place roles.old.items) }
    ensures { OnOk result (map (λ a. a.script) actors.new.items ≡ cast_from 0 roles.old.items) }
{
    while let Some(role) = roles.pop() {
        add_actor(gates, actors, roles.len() as u32, role)?;
    }
    Ok(())
}

/// The actors of these roles, the one with the highest number first. The gate of a script is the one at its place.
fn cast<G: Gate>(
    alloc: Global,
    roles: Vec<Option<Role>>,
    gates: Vec<G>,
) -> Result<Vec<Actor<G>>, AllocError>
    requires few { length roles.items ≤ 33 }
    requires seats { AreSeats (map role_place roles.items) }
    requires gates { length gates.items ≡ 16 }
    ensures { IfOk result (λ actors. map (λ a. a.script) actors.items ≡ cast_from 0 roles.items) }
{
    let mut roles = roles;
    let mut gates = match placed(alloc, gates) {
        Ok(gates) => gates,
        Err(error) => {
            drop(roles);
            return Err(error);
        }
    };
    let mut actors = Vec::new(alloc);
    let added = add_actors(&mut gates, &mut actors, &mut roles);
    drop(gates);
    drop(roles);
    match added {
        Ok(()) => Ok(actors),
        Err(error) => {
            drop(actors);
            Err(error)
        }
    }
}

/// The actors of scripts, the one with the highest number first, and the lines of the scripts, both by the actors' numbers. The gate
/// of a script is the one at its place.
pub fn cast_scripts<G: Gate>(
    alloc: Global,
    slots: Vec<Option<Script>>,
    gates: Vec<G>,
) -> Result<(Vec<Actor<G>>, Vec<Vec<StepLine>>), AllocError>
    requires few { length slots.items ≤ 33 }
    requires seats { AreSeats (map script_place slots.items) }
    requires gates { length gates.items ≡ 16 }
    ensures book { IfOk result (λ r. book_seen r.1.items ≡ map lines_in slots.items) }
    ensures actors { IfOk result (λ r. IsCast (map (λ a. a.script) r.0.items) slots.items) }
{
    let (roles, book) = match part(alloc, slots) {
        Ok(parts) => parts,
        Err(error) => {
            drop(gates);
            return Err(error);
        }
    };
    match cast(alloc, roles, gates) {
        Ok(actors) => Ok((actors, book)),
        Err(error) => {
            drop(book);
            Err(error)
        }
    }
}
