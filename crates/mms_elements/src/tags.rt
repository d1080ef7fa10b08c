//! The tags of PDUs, of services and of their fields (ISO 9506-2): 0x80 and the number of the choice or of the field, with 0x20
//! where the element is constructed.

// MMSpdu
pub const CONFIRMED_REQUEST: u32 = 0xa0;

pub const CONFIRMED_RESPONSE: u32 = 0xa1;

pub const CONFIRMED_ERROR: u32 = 0xa2;

pub const UNCONFIRMED: u32 = 0xa3;

pub const REJECT: u32 = 0xa4;

pub const INITIATE_REQUEST: u32 = 0xa8;

pub const INITIATE_RESPONSE: u32 = 0xa9;

pub const CONCLUDE_REQUEST: u32 = 0x8b;

pub const CONCLUDE_RESPONSE: u32 = 0x8c;

// ConfirmedServiceRequest and ConfirmedServiceResponse
pub const STATUS: u32 = 0x80;

pub const GET_NAME_LIST: u32 = 0xa1;

pub const IDENTIFY: u32 = 0x82;

pub const READ: u32 = 0xa4;

pub const WRITE: u32 = 0xa5;
/// getVariableAccessAttributes
pub const GET_ATTRIBUTES: u32 = 0xa6;
/// defineNamedVariableList
pub const DEFINE_LIST: u32 = 0xab;
/// getNamedVariableListAttributes
pub const GET_LIST_ATTRIBUTES: u32 = 0xac;
/// deleteNamedVariableList
pub const DELETE_LIST: u32 = 0xad;

// Confirmed-RequestPDU and Confirmed-ResponsePDU
/// invokeID: an INTEGER, the universal tag 2 (ITU-T X.690, 8.3)
pub const INVOKE_ID: u32 = 0x02;

// Confirmed-ErrorPDU, RejectPDU
pub const ORIGINAL_INVOKE_ID: u32 = 0x80;

pub const SERVICE_ERROR: u32 = 0xa2;

pub const ERROR_CLASS: u32 = 0xa0;
/// rejectReason: confirmed-requestPDU
pub const REQUEST_REJECTED: u32 = 0x81;
/// rejectReason: pdu-error
pub const PDU_REJECTED: u32 = 0x85;

// Initiate-RequestPDU and Initiate-ResponsePDU
/// localDetailCalling, localDetailCalled: the greatest size of a PDU
pub const LOCAL_DETAIL: u32 = 0x80;
/// proposedMaxServOutstandingCalling, negotiatedMaxServOutstandingCalling
pub const OUTSTANDING_CALLING: u32 = 0x81;
/// proposedMaxServOutstandingCalled, negotiatedMaxServOutstandingCalled
pub const OUTSTANDING_CALLED: u32 = 0x82;
/// proposedDataStructureNestingLevel, negotiatedDataStructureNestingLevel
pub const NESTING_LEVEL: u32 = 0x83;
/// mmsInitRequestDetail, mmsInitResponseDetail
pub const INIT_DETAIL: u32 = 0xa4;

pub const VERSION_NUMBER: u32 = 0x80;

pub const PARAMETER_CBB: u32 = 0x81;

pub const SERVICES_SUPPORTED: u32 = 0x82;

// ObjectName
pub const VMD_SPECIFIC: u32 = 0x80;

pub const DOMAIN_SPECIFIC: u32 = 0xa1;

pub const AA_SPECIFIC: u32 = 0x82;
/// Identifier: a VisibleString, the universal tag 26 (ITU-T X.690, 8.23)
pub const IDENTIFIER: u32 = 0x1a;

// GetNameList-Request
pub const EXTENDED_OBJECT_CLASS: u32 = 0xa0;

pub const OBJECT_CLASS: u32 = 0x80;

pub const OBJECT_SCOPE: u32 = 0xa1;

pub const CONTINUE_AFTER: u32 = 0x82;

pub const VMD_SCOPE: u32 = 0x80;

pub const DOMAIN_SCOPE: u32 = 0x81;

pub const AA_SCOPE: u32 = 0x82;

// VariableAccessSpecification
pub const LIST_OF_VARIABLE: u32 = 0xa0;

pub const VARIABLE_LIST_NAME: u32 = 0xa1;
/// an item of listOfVariable: a SEQUENCE, the universal tag 16 (ITU-T X.690, 8.9)
pub const VARIABLE: u32 = 0x30;
/// VariableSpecification, GetVariableAccessAttributes-Request: name
pub const NAME: u32 = 0xa0;

pub const ALTERNATE_ACCESS: u32 = 0xa5;

// Read-Request and Read-Response
pub const SPECIFICATION_WITH_RESULT: u32 = 0x80;
/// variableAccessSpecification of a request
pub const ACCESS_SPECIFICATION: u32 = 0xa1;
/// variableAccessSpecification of a response
pub const SPECIFICATION_OF_RESULT: u32 = 0xa0;
/// listOfAccessResult of a response
pub const LIST_OF_RESULT: u32 = 0xa1;

// AccessResult, Write-Request and Write-Response
pub const FAILURE: u32 = 0x80;

pub const SUCCESS: u32 = 0x81;

pub const LIST_OF_DATA: u32 = 0xa0;

// DeleteNamedVariableList-Request
pub const SCOPE_OF_DELETE: u32 = 0x80;
/// listOfVariableListName
pub const LIST_OF_NAME: u32 = 0xa1;

// InformationReport
pub const INFORMATION_REPORT: u32 = 0xa0;
/// listOfAccessResult of a report
pub const REPORT_RESULTS: u32 = 0xa0;
