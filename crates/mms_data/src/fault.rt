//! Why octets are no Data.

ghost use Rattle.std.specs.Prelude.{◌≡◌};
ghost use Rattle.mms_data.specs.declared.fault.DataFault.TheVariants.{Memory};

use std::alloc::{AllocError, AllocFailed};

/// Why octets are no Data, in the order of the tests.
#[derive(Clone, Copy, Debug, PartialEq, Eq)]
pub enum DataFault {
    /// The input is not one whole element, or an element is outside the context class.
    Tag,
    /// A content is not of its kind's form, or a part of a structure is no whole element.
    Length,
    /// A value lies more than ten deep.
    Depth,
    /// There was no memory.
    Memory,
}

impl From<AllocError> for DataFault {
    ghost from_gives = { λ _ e. e ≡ Memory };

    fn from(_error: AllocError) -> DataFault {
        DataFault::Memory
    }
}

impl<T: Drop> From<AllocFailed<T>> for DataFault {
    ghost from_gives = { λ _ e. e ≡ Memory };

    fn from(_error: AllocFailed<T>) -> DataFault {
        DataFault::Memory
    }
}
