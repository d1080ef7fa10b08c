//! The classes of objects whose names a server lists (ISO 9506-2, ObjectClass).

pub const NAMED_VARIABLE: u8 = 0;

pub const NAMED_VARIABLE_LIST: u8 = 2;

pub const DOMAIN: u8 = 9;
