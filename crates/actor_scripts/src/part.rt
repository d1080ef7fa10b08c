//! What comes of a script.

use bay_histories::StepFault;
use bay_model::Answer;

/// What a turn was answered.
#[derive(Drop)]
pub struct Reply {
    /// The place of its step in the history, counted from 0.
    pub place: u64,
    pub answer: Answer,
}

/// What comes of an actor's script.
#[derive(Drop)]
pub struct Part {
    pub actor: u32,
    /// The answers to the steps of the script up to where it stopped, in order.
    pub replies: Vec<Reply>,
    /// Why the step after those was refused; none where all went.
    pub fault: Option<StepFault>,
}
