//! The reasons of a reject (ISO 9506-2, RejectPDU, rejectReason), each within its choice.

// pdu-error
pub const UNKNOWN_PDU_TYPE: u8 = 0;

pub const INVALID_PDU: u8 = 1;

// confirmed-requestPDU
pub const UNRECOGNIZED_SERVICE: u8 = 1;

pub const INVALID_ARGUMENT: u8 = 4;
