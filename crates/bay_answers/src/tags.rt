//! The tags of responses and of their fields (ISO 9506-2, ConfirmedServiceResponse): 0x80 and the number of the choice or of the
//! field, with 0x20 where the element is constructed. Those that requests have too stand in `mms_pdu`, those of Data in `mms_data`.

// ConfirmedServiceResponse, where a response's is another than its request's
pub const STATUS: u32 = 0xa0;

pub const IDENTIFY: u32 = 0xa2;

pub const DEFINE_LIST: u32 = 0x8b;

// GetNameList-Response
pub const LIST_OF_IDENTIFIER: u32 = 0xa0;

pub const MORE_FOLLOWS: u32 = 0x81;

// Identify-Response
pub const VENDOR_NAME: u32 = 0x80;

pub const MODEL_NAME: u32 = 0x81;

pub const REVISION: u32 = 0x82;

// GetVariableAccessAttributes-Response and GetNamedVariableListAttributes-Response
pub const MMS_DELETABLE: u32 = 0x80;

pub const TYPE_DESCRIPTION: u32 = 0xa2;
/// listOfVariable of a response
pub const LIST_OF_VARIABLE: u32 = 0xa1;

// DeleteNamedVariableList-Response
pub const NUMBER_MATCHED: u32 = 0x80;

pub const NUMBER_DELETED: u32 = 0x81;
