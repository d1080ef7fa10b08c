//! Why a turn was not accepted.

use bay_histories::StepFault;

/// Why a turn was not accepted.
#[derive(Clone, Copy, Debug, PartialEq, Eq)]
pub enum TurnFault {
    /// The pass has no turn left.
    Ended,
    /// The machine refused the step.
    Step(StepFault),
}
