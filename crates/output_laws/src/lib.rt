//! A law of what a bay answers to a Take: it can be sent. The functions run nothing: each contract is a law.
#![tactic(auto)]

mod names;
mod sendable;

pub use names::texts_have_short_names;
pub use sendable::outputs_can_be_sent;
