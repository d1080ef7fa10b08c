//! Codes on the wire: SPDUs and their parameters (ISO 8327-1), and the tags of PPDUs (ISO 8823-1).

// ---- SPDUs (ISO 8327-1, "Structure and encoding of SPDUs"): the SPDU identifiers

/// GIVE TOKENS, which stands before a DATA TRANSFER.
pub const GIVE_TOKENS: u8 = 0x01;

/// DATA TRANSFER.
pub const DATA_TRANSFER: u8 = 0x01;

/// FINISH.
pub const FINISH: u8 = 0x09;

/// DISCONNECT.
pub const DISCONNECT: u8 = 0x0a;

/// CONNECT.
pub const CONNECT: u8 = 0x0d;

/// ACCEPT.
pub const ACCEPT: u8 = 0x0e;

/// ABORT.
pub const ABORT: u8 = 0x19;

// ---- their parameters: parameter identifiers, and the identifier of a parameter group

/// The group connect/accept item, whose value is parameters too.
pub const CONNECT_ACCEPT_ITEM: u8 = 0x05;

/// User data.
pub const USER_DATA: u8 = 0xc1;

// ---- PPDUs (ISO 8823-1, "Structure and encoding of PPDUs"), by the names of the ASN.1 there

/// Mode-selector: `[0]` of a CP and of a CPA.
pub const MODE_SELECTOR: u32 = 0xa0;

/// mode-value: `[0]` of a Mode-selector.
pub const MODE_VALUE: u32 = 0x80;

/// normal-mode-parameters: `[2]` of a CP and of a CPA.
pub const NORMAL_MODE_PARAMETERS: u32 = 0xa2;

/// Presentation-context-definition-list: `[4]` of a CP's parameters.
pub const CONTEXT_DEFINITION_LIST: u32 = 0xa4;

/// Presentation-context-definition-result-list: `[5]` of a CPA's parameters.
pub const CONTEXT_RESULT_LIST: u32 = 0xa5;

/// result: `[0]` of a result of the list.
pub const RESULT: u32 = 0x80;

/// transfer-syntax-name: `[1]` of a result of the list.
pub const TRANSFER_SYNTAX: u32 = 0x81;

/// Fully-encoded-data: `[APPLICATION 1]`.
pub const FULLY_ENCODED_DATA: u32 = 0x61;

/// single-ASN1-type: `[0]` of a PDV.
pub const SINGLE_ASN1_TYPE: u32 = 0xa0;

// ---- universal tags (ITU-T X.690, 8.3, 8.9, 8.11 and 8.19)

/// INTEGER.
pub const INTEGER: u32 = 0x02;

/// OBJECT IDENTIFIER.
pub const OBJECT_IDENTIFIER: u32 = 0x06;

/// SEQUENCE.
pub const SEQUENCE: u32 = 0x30;

/// SET.
pub const SET: u32 = 0x31;
