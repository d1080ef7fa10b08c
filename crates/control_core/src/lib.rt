//! Controls: who has selected one, which command it executes, and what a call comes to (IEC 61850-7-2, the control class model).
#![tactic(auto)]

mod command;
mod control;
mod controls;
mod executed;
mod history_laws;
mod kept_command;
mod laws;
mod selected;

// the controls, and what is said of their calls
pub use control::Went;
pub use controls::Controls;

// their laws
pub use history_laws::{
    calls_are_accepted, executions_are, opers_act, selections_are, terminations_wait,
};
pub use laws::{calls_are_judged, controls_stand, terminations_are_put};
