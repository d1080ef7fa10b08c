//! Object identifiers of the protocols, by the octets of their contents (ITU-T X.690, 8.19).

/// 2.1.1: the basic encoding rules (ITU-T X.690, 12.2).
pub const BER: [u8; 2] = [0x51, 0x01];
/// 2.2.1.0.1: the abstract syntax of ACSE (ISO 8650-1).
pub const ACSE: [u8; 4] = [0x52, 0x01, 0x00, 0x01];
/// 1.0.9506.2.1: the abstract syntax of MMS (ISO 9506-2).
pub const MMS: [u8; 5] = [0x28, 0xca, 0x22, 0x02, 0x01];
/// 1.0.9506.2.3: the application context of MMS (ISO 9506-2, IEC 61850-8-1).
pub const MMS_CONTEXT: [u8; 5] = [0x28, 0xca, 0x22, 0x02, 0x03];
