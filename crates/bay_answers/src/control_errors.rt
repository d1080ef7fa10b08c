//! How far a command came that failed (IEC 61850-8-1, LastApplError, Error).

/// Nothing further is known.
pub const UNKNOWN: i64 = 1;
