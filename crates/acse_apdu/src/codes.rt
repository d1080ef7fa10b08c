//! Tags on the wire: the APDUs and their fields (ISO 8650-1, the module "ACSE-1"), and of an EXTERNAL (ITU-T X.690, 8.18).

/// AARQ, association request: `[APPLICATION 0]`.
pub const AARQ: u32 = 0x60;

/// AARE, association response: `[APPLICATION 1]`.
pub const AARE: u32 = 0x61;

/// RLRQ, release request: `[APPLICATION 2]`.
pub const RLRQ: u32 = 0x62;

/// RLRE, release response: `[APPLICATION 3]`.
pub const RLRE: u32 = 0x63;

/// application-context-name: `[1]` of an AARQ and of an AARE.
pub const APPLICATION_CONTEXT_NAME: u32 = 0xa1;

/// result: `[2]` of an AARE.
pub const RESULT: u32 = 0xa2;

/// result-source-diagnostic: `[3]` of an AARE.
pub const RESULT_SOURCE_DIAGNOSTIC: u32 = 0xa3;

/// acse-service-user: `[1]` in the diagnostic.
pub const SERVICE_USER: u32 = 0xa1;

/// user-information: `[30]`.
pub const USER_INFORMATION: u32 = 0xbe;

/// reason: `[0]` of an RLRQ and of an RLRE.
pub const REASON: u32 = 0x80;

/// EXTERNAL, the universal tag 8 of a constructed element (ITU-T X.690, 8.18).
pub const EXTERNAL: u32 = 0x28;

/// single-ASN1-type: `[0]` of an EXTERNAL.
pub const SINGLE_ASN1_TYPE: u32 = 0xa0;

/// INTEGER, the universal tag 2 (ITU-T X.690, 8.3).
pub const INTEGER: u32 = 0x02;

/// OBJECT IDENTIFIER, the universal tag 6 (ITU-T X.690, 8.19).
pub const OBJECT_IDENTIFIER: u32 = 0x06;
