//! A step of a history, by whose script it is of.

use bay_model::Answer;

/// A step of a history: the actor's number, the place of the step in its script, counted from 0, and what it was answered.
#[derive(Drop)]
pub struct Made {
    pub actor: u32,
    pub index: u64,
    pub answer: Answer,
}
