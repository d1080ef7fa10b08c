//! Why a value is not set.

/// Why a value is not set, in the order of the tests.
#[derive(Clone, Copy, Debug, PartialEq, Eq)]
pub enum SetFault {
    /// It is of another kind than the attribute, or a bit string of another length.
    Kind,
    /// A client writes an attribute that clients may not write.
    ReadOnly,
    /// A number is out of the type's range, or a text or an octet string is too long.
    TooLong,
}
