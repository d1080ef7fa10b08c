//! Why no report is read.

ghost use Rattle.std.specs.Prelude.{◌≡◌};
ghost use Rattle.report_cut.specs.declared.fault.ReportFault.TheVariants.{Memory};

use std::alloc::{AllocError, AllocFailed};

/// Why no report is read.
#[derive(Clone, Copy, Debug, PartialEq, Eq)]
pub enum ReportFault {
    /// The octets are no PDU of a report (IEC 61850-8-1, mapping of the Report service).
    Invalid,
    /// There was no memory.
    Memory,
}

impl From<AllocError> for ReportFault {
    ghost from_gives = { λ _ e. e ≡ Memory };

    fn from(_error: AllocError) -> ReportFault {
        ReportFault::Memory
    }
}

impl<T: Drop> From<AllocFailed<T>> for ReportFault {
    ghost from_gives = { λ _ e. e ≡ Memory };

    fn from(_error: AllocFailed<T>) -> ReportFault {
        ReportFault::Memory
    }
}
