//! Why a PDU is rejected (ISO 9506-2, RejectPDU), by the number that requests and replies carry; the reason on the wire stands for it.

/// The PDU is of no type that a server takes: unknown-pdu-type.
pub const UNKNOWN_PDU: u8 = 1;
/// The request is of no service that a server has: unrecognized-service.
pub const UNKNOWN_SERVICE: u8 = 2;
/// What the request asks for isn't of its form: invalid-argument.
pub const INVALID_ARGUMENT: u8 = 3;
/// The octets are no PDU: invalid-pdu.
pub const INVALID_PDU: u8 = 4;
