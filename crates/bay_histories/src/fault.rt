//! Why a step is refused.

use std::alloc::AllocError;
use sv_base::AssocNo;
use thiserror::Error;

/// Why a step is refused, in the order of the tests. A refused step changes nothing and isn't counted.
#[derive(Clone, Copy, Debug, PartialEq, Eq, Error)]
pub enum StepFault {
    /// The association that is to be opened is open.
    #[error("association {} is open", .0.0)]
    IsOpen(AssocNo),
    /// The association isn't open.
    #[error("association {} is not open", .0.0)]
    NotOpen(AssocNo),
    /// The actor isn't the one who may make this step of the association.
    #[error("the actor may not act for association {}", .0.0)]
    NotYours(AssocNo),
    /// 16 replies wait for the association.
    #[error("16 replies wait for association {}", .0.0)]
    QueueFull(AssocNo),
    /// Memory is wanted.
    #[error("out of memory")]
    Memory,
}
