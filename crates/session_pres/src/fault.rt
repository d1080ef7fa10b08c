//! Why octets are no SPDU or PPDU that is awaited.

/// Why octets are no SPDU or PPDU that is awaited, in the order of the tests.
#[derive(Clone, Copy, Debug, PartialEq, Eq)]
pub enum SpFault {
    /// No SPDU of an awaited code, or its length isn't that of all that follows (ISO 8327-1, "Structure of SPDUs").
    Spdu,
    /// The parameters of an SPDU don't cut into whole ones, user data are lacking in one that connects, or a CP or CPA
    /// isn't made of whole elements (ISO 8823-1, "CP-type" and "CPA-PPDU").
    Parameter,
    /// The mode isn't the normal mode (ISO 8823-1, "Mode-selector").
    Mode,
    /// The context of ACSE isn't offered with BER, or wasn't accepted.
    NoAcseContext,
    /// The context of MMS isn't offered with BER, or wasn't accepted.
    NoMmsContext,
    /// The user data are no PDV of the awaited context (ISO 8823-1, "User-data").
    Pdv,
}
