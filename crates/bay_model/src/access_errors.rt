//! Why a single read or write is refused (ISO 9506-2, DataAccessError; IEC 61850-8-1, its use).

pub const TEMPORARILY_UNAVAILABLE: u8 = 2;

pub const OBJECT_ACCESS_DENIED: u8 = 3;

pub const TYPE_INCONSISTENT: u8 = 7;

pub const OBJECT_ATTRIBUTE_INCONSISTENT: u8 = 8;

pub const OBJECT_ACCESS_UNSUPPORTED: u8 = 9;

pub const OBJECT_NON_EXISTENT: u8 = 10;

pub const OBJECT_VALUE_INVALID: u8 = 11;
