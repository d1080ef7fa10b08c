//! Why a request is answered by an error: its class, and its code within the class (ISO 9506-2, ServiceError).

// errorClass
pub const DEFINITION: u8 = 2;

pub const RESOURCE: u8 = 3;

pub const SERVICE: u8 = 4;

pub const ACCESS: u8 = 7;

// definition
pub const OBJECT_EXISTS: u8 = 5;

// resource
pub const RESOURCE_OTHER: u8 = 0;

// service
pub const PDU_SIZE: u8 = 3;

// access
pub const OBJECT_NON_EXISTENT: u8 = 2;

pub const OBJECT_ACCESS_DENIED: u8 = 3;
