//! Why an APDU is refused.

/// Why octets are no APDU that is awaited, in the order of the tests.
#[derive(Clone, Copy, Debug, PartialEq, Eq)]
pub enum AcFault {
    /// They are not one whole element with the APDU's tag and whole elements in it, or an AARE whose result is not
    /// accepted (ISO 8650-1, "ACSE-1").
    Apdu,
    /// There is no application context name, or it is not that of MMS, 1.0.9506.2.3.
    ContextName,
    /// There is no user information, or it is not one EXTERNAL with a context number and a value.
    NoUserInformation,
}
