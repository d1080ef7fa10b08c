//! The part of an actor's thread in a race: what it is given, and what it gives back.

use actor_scripts::{Part, Reply, Script};
use bay_histories::StateMachine;
use history_lock::Pass;

/// What an actor's thread is given: its pass, and memory for the replies to all steps of its script.
#[derive(Drop)]
pub struct Job<M: StateMachine, G: Drop> {
    pub pass: Pass<M>,
    pub script: Script,
    pub gate: G,
    pub replies: Vec<Reply>,
}

/// What an actor's thread gives back.
#[derive(Drop)]
pub struct Played<M: StateMachine> {
    pub pass: Pass<M>,
    pub part: Part,
}
