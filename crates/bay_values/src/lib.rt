//! The values of a bay's attributes: what the process, clients and setting groups make of them, and what changed by that
//! (IEC 61850-7-2, DataAttribute, TriggerConditions and SETTING-GROUP-CONTROL-BLOCK).
#![tactic(auto)]

mod laws;
mod loading;
mod values;

pub use laws::groups_fit_values;
pub use values::Values;
