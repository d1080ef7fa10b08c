//! Histories of a bay's accepted steps by those who made them, what makes the steps, and why one is refused.
#![tactic(auto)]

mod fault;
mod machine;

pub use fault::StepFault;
pub use machine::StateMachine;
