//! The state machine of a bay: associations with their requests, attribute values, controls and buffered reporting (IEC 61850-7-2), step by
//! step.
#![tactic(auto)]

// a bay, and how it begins
mod bay;
mod opening;

// its steps
mod asking;
mod associations;
mod commands;
mod defining;
mod deleting;
mod laws;
mod machine;
mod reading;
mod setting;
mod settings;
mod singles;
mod step;
mod taking;
mod time;
mod writing;

pub use bay::Bay;
pub use bay_histories::StepFault;
pub use laws::bays_cross_threads;
