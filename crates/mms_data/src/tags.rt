//! The tags of Data and of TypeDescription (ISO 9506-2): 0x80 and the number of the choice, with 0x20 where the element
//! is constructed.

// Both: [3] to [6], [9], [10], [12] and [17], and [2].
pub const BOOLEAN: u32 = 0x83;

pub const BIT_STRING: u32 = 0x84;

pub const INTEGER: u32 = 0x85;

pub const UNSIGNED: u32 = 0x86;

pub const OCTET_STRING: u32 = 0x89;

pub const VISIBLE_STRING: u32 = 0x8a;

pub const BINARY_TIME: u32 = 0x8c;

pub const UTC_TIME: u32 = 0x91;

pub const STRUCTURE: u32 = 0xa2;

// The components of a structure's TypeDescription, [1], of which each is a SEQUENCE of a name, [0], and a type, [1].
pub const COMPONENTS: u32 = 0xa1;

pub const COMPONENT: u32 = 0x30;

pub const COMPONENT_NAME: u32 = 0x80;

pub const COMPONENT_TYPE: u32 = 0xa1;
