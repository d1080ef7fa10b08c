//! What a rehearsal's input is: a configuration, and scripts whose lines are told one by one, each by its own lines before.
#![tactic(auto)]

// what an input comes to
mod form;
mod line;
mod opened;
mod script;

// what holds of every plan
mod laws;

pub use form::ScriptForm;
pub use laws::{inputs_come_to_their_plans, plans_are_sound};
pub use line::StepLine;
pub use opened::Opened;
pub use script::Script;
