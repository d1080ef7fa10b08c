//! The configuration of a rehearsal.

ghost use Rattle.std.specs.Prelude.{◌≡◌, ◌<◌, ◌^◌, ℕ, None, replicate, IfOk};
ghost use Rattle.cfg_parser.specs.Looking.{config_at};
ghost use Rattle.script_plans.specs.Openings.{started};
ghost use Rattle.script_reading.specs.Readings.{Starts, IsModelOf, IsSoundStart};

use crate::plan::Plan;
use cfg_text::{CfgFault, read_config};
use object_model::Model;
use record_outcome::status::{Judged, Status};
use script_plans::Script;
use std::alloc::{AllocError, Global};

/// A place for each number of an actor.
const PLACES: usize = 33;

/// What becomes of a whole configuration.
#[derive(Drop)]
pub enum Started {
    Plans(Plan),
    Refused(Status),
}

/// A place for each actor, without its script.
fn no_scripts(alloc: Global) -> Result<Vec<Option<Script>>, AllocError>
    ensures { IfOk result (λ v. v.items ≡ replicate 33 None) }
{
    let mut slots = Vec::new(alloc);
    for _ in 0..PLACES {
        slots.push(None)?;
    }
    Ok(slots)
}

/// The model of the configuration of this text, after n lines, or the status that refuses it.
fn model_of(alloc: Global, before: u64, text: &[u8]) -> Judged<Model>
    requires { before < 2 ^ 62 }
    ensures { IfOk result (λ found. IsModelOf before found (config_at text.now)) }
{
    match read_config(alloc, text) {
        Ok(config) => Ok(Ok(Model::build(alloc, config)?)),
        Err(CfgFault::Refused { line, kind }) => Ok(Err(Status::Config {
            line: before + u64::from(line),
            kind: kind.number(),
        })),
        Err(CfgFault::Memory) => Err(AllocError),
    }
}

/// What becomes of a text, and the places of actors, by the model that was found or the status that refuses the text.
fn started_with(found: Result<Model, Status>, text: Vec<u8>, slots: Vec<Option<Script>>) -> Started
    requires { slots.items ≡ replicate 33 None }
    ensures starts { (before : ℕ) → IsModelOf before found (config_at text.items)
        → Starts result (started before text.items (config_at text.items)) }
    ensures sound { (before : ℕ) → IsModelOf before found (config_at text.items)
        → IsSoundStart result }
{
    match found {
        Ok(model) => Started::Plans(Plan {
            model,
            text,
            slots,
            count: 0,
            processes: 0,
        }),
        Err(status) => Started::Refused(status),
    }
}

/// Reads the configuration of this text, after n lines.
pub fn start(alloc: Global, before: u64, text: Vec<u8>) -> Result<Started, AllocError>
    requires { before < 2 ^ 62 }
    ensures starts { IfOk result
        (λ s. Starts s (started before text.items (config_at text.items))) }
    ensures sound { IfOk result IsSoundStart }
{
    let slots = no_scripts(alloc)?;
    match model_of(alloc, before, &text) {
        Ok(found) => Ok(started_with(found, text, slots)),
        Err(error) => {
            drop(slots);
            drop(text);
            Err(error)
        }
    }
}
