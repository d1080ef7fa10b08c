//! What an actor is to do.

use bay_model::Step;
use sv_base::Moment;

/// A step, and the moment that is handed in with it.
#[derive(Drop)]
pub struct TimedStep {
    pub moment: Moment,
    pub step: Step,
}

/// The steps of an actor, in order.
#[derive(Drop)]
pub struct Script {
    /// The number of the actor.
    pub actor: u32,
    pub steps: Vec<TimedStep>,
}

/// An actor of a race: its script, and the gate that it passes before each turn.
#[derive(Drop)]
pub struct Actor<G: Drop> {
    pub script: Script,
    pub gate: G,
}
