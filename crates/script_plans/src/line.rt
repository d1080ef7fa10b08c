//! A line of a script.

use crate::form::ScriptForm;
use sv_base::{Moment, Octs};

/// A line of a script that makes a step.
#[derive(Debug, Drop)]
pub struct StepLine {
    /// Its number in the input, counted from 1.
    pub number: u64,
    /// Its text, without a newline.
    pub text: Octs,
    /// What its association is before it.
    pub form: ScriptForm,
    /// The moment of its step.
    pub moment: Moment,
}
