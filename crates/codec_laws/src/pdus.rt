//! The tags of PDUs, of services and of their fields (ISO 9506-2, MMSpdu and the productions below it), by their numbers.

ghost use Rattle.std.specs.Prelude.{◌≡◌};
ghost use Rattle.mms_elements.specs.declared.tags.TheConstants.{CONFIRMED_REQUEST};
ghost use Rattle.mms_elements.specs.declared.tags.TheConstants.{CONFIRMED_RESPONSE};
ghost use Rattle.mms_elements.specs.declared.tags.TheConstants.{CONFIRMED_ERROR, UNCONFIRMED};
ghost use Rattle.mms_elements.specs.declared.tags.TheConstants.{REJECT};
ghost use Rattle.mms_elements.specs.declared.tags.TheConstants.{INITIATE_REQUEST};
ghost use Rattle.mms_elements.specs.declared.tags.TheConstants.{INITIATE_RESPONSE};
ghost use Rattle.mms_elements.specs.declared.tags.TheConstants.{CONCLUDE_REQUEST};
ghost use Rattle.mms_elements.specs.declared.tags.TheConstants.{CONCLUDE_RESPONSE, STATUS};
ghost use Rattle.mms_elements.specs.declared.tags.TheConstants.{GET_NAME_LIST, IDENTIFY, READ};
ghost use Rattle.mms_elements.specs.declared.tags.TheConstants.{WRITE, GET_ATTRIBUTES, DEFINE_LIST};
ghost use Rattle.mms_elements.specs.declared.tags.TheConstants.{GET_LIST_ATTRIBUTES, DELETE_LIST};
ghost use Rattle.mms_elements.specs.declared.tags.TheConstants.{INVOKE_ID, ORIGINAL_INVOKE_ID};
ghost use Rattle.mms_elements.specs.declared.tags.TheConstants.{SERVICE_ERROR};
ghost use Rattle.mms_elements.specs.declared.tags.TheConstants.{ERROR_CLASS, REQUEST_REJECTED};
ghost use Rattle.mms_elements.specs.declared.tags.TheConstants.{PDU_REJECTED, LOCAL_DETAIL};
ghost use Rattle.mms_elements.specs.declared.tags.TheConstants.{OUTSTANDING_CALLING};
ghost use Rattle.mms_elements.specs.declared.tags.TheConstants.{OUTSTANDING_CALLED, NESTING_LEVEL};
ghost use Rattle.mms_elements.specs.declared.tags.TheConstants.{INIT_DETAIL, VERSION_NUMBER};
ghost use Rattle.mms_elements.specs.declared.tags.TheConstants.{PARAMETER_CBB};
ghost use Rattle.mms_elements.specs.declared.tags.TheConstants.{SERVICES_SUPPORTED, VMD_SPECIFIC};
ghost use Rattle.mms_elements.specs.declared.tags.TheConstants.{DOMAIN_SPECIFIC, AA_SPECIFIC};
ghost use Rattle.mms_elements.specs.declared.tags.TheConstants.{IDENTIFIER};
ghost use Rattle.mms_elements.specs.declared.tags.TheConstants.{EXTENDED_OBJECT_CLASS};
ghost use Rattle.mms_elements.specs.declared.tags.TheConstants.{OBJECT_CLASS, OBJECT_SCOPE};
ghost use Rattle.mms_elements.specs.declared.tags.TheConstants.{CONTINUE_AFTER, VMD_SCOPE};
ghost use Rattle.mms_elements.specs.declared.tags.TheConstants.{DOMAIN_SCOPE, AA_SCOPE};
ghost use Rattle.mms_elements.specs.declared.tags.TheConstants.{LIST_OF_VARIABLE};
ghost use Rattle.mms_elements.specs.declared.tags.TheConstants.{VARIABLE_LIST_NAME, VARIABLE, NAME};
ghost use Rattle.mms_elements.specs.declared.tags.TheConstants.{ALTERNATE_ACCESS};
ghost use Rattle.mms_elements.specs.declared.tags.TheConstants.{SPECIFICATION_WITH_RESULT};
ghost use Rattle.mms_elements.specs.declared.tags.TheConstants.{ACCESS_SPECIFICATION};
ghost use Rattle.mms_elements.specs.declared.tags.TheConstants.{SPECIFICATION_OF_RESULT};
ghost use Rattle.mms_elements.specs.declared.tags.TheConstants.{LIST_OF_RESULT, FAILURE, SUCCESS};
ghost use Rattle.mms_elements.specs.declared.tags.TheConstants.{LIST_OF_DATA};
ghost use Rattle.mms_elements.specs.declared.tags.TheConstants.{SCOPE_OF_DELETE, LIST_OF_NAME};
ghost use Rattle.mms_elements.specs.declared.tags.TheConstants.{INFORMATION_REPORT, REPORT_RESULTS};

/// The tags of PDUs, of services and of their fields (ISO 9506-2, MMSpdu and the productions below it): the numbers of the code's
/// table, which the definitions of `mms_pdu` read too.
pub fn tags_of_pdus_are_the_standards()
    // MMSpdu
    ensures pdus { (CONFIRMED_REQUEST ≡ 0xa0) × (CONFIRMED_RESPONSE ≡ 0xa1)
        × (CONFIRMED_ERROR ≡ 0xa2) ×
        (UNCONFIRMED ≡ 0xa3) × (REJECT ≡ 0xa4) × (INITIATE_REQUEST ≡ 0xa8)
        × (INITIATE_RESPONSE ≡ 0xa9) ×
        (CONCLUDE_REQUEST ≡ 0x8b) × (CONCLUDE_RESPONSE ≡ 0x8c) }
    // ConfirmedServiceRequest and ConfirmedServiceResponse
    ensures services { (STATUS ≡ 0x80) × (GET_NAME_LIST ≡ 0xa1) × (IDENTIFY ≡ 0x82) × (READ ≡ 0xa4)
        × (WRITE ≡ 0xa5) ×
        (GET_ATTRIBUTES ≡ 0xa6) × (DEFINE_LIST ≡ 0xab) × (GET_LIST_ATTRIBUTES ≡ 0xac)
        × (DELETE_LIST ≡ 0xad) }
    // Confirmed-RequestPDU and Confirmed-ResponsePDU
    ensures numbers { (INVOKE_ID ≡ 0x02) }
    // Confirmed-ErrorPDU, RejectPDU
    ensures failures { (ORIGINAL_INVOKE_ID ≡ 0x80) × (SERVICE_ERROR ≡ 0xa2) × (ERROR_CLASS ≡ 0xa0) ×
        (REQUEST_REJECTED ≡ 0x81) × (PDU_REJECTED ≡ 0x85) }
    // Initiate-RequestPDU and Initiate-ResponsePDU
    ensures initiate { (LOCAL_DETAIL ≡ 0x80) × (OUTSTANDING_CALLING ≡ 0x81)
        × (OUTSTANDING_CALLED ≡ 0x82) ×
        (NESTING_LEVEL ≡ 0x83) × (INIT_DETAIL ≡ 0xa4) × (VERSION_NUMBER ≡ 0x80)
        × (PARAMETER_CBB ≡ 0x81) ×
        (SERVICES_SUPPORTED ≡ 0x82) }
    // ObjectName
    ensures object_names { (VMD_SPECIFIC ≡ 0x80) × (DOMAIN_SPECIFIC ≡ 0xa1) × (AA_SPECIFIC ≡ 0x82) ×
        (IDENTIFIER ≡ 0x1a) }
    // GetNameList-Request
    ensures name_lists { (EXTENDED_OBJECT_CLASS ≡ 0xa0) × (OBJECT_CLASS ≡ 0x80)
        × (OBJECT_SCOPE ≡ 0xa1) ×
        (CONTINUE_AFTER ≡ 0x82) × (VMD_SCOPE ≡ 0x80) × (DOMAIN_SCOPE ≡ 0x81) × (AA_SCOPE ≡ 0x82) }
    // VariableAccessSpecification
    ensures specifications { (LIST_OF_VARIABLE ≡ 0xa0) × (VARIABLE_LIST_NAME ≡ 0xa1)
        × (VARIABLE ≡ 0x30) ×
        (NAME ≡ 0xa0) × (ALTERNATE_ACCESS ≡ 0xa5) }
    // Read-Request and Read-Response
    ensures reads { (SPECIFICATION_WITH_RESULT ≡ 0x80) × (ACCESS_SPECIFICATION ≡ 0xa1) ×
        (SPECIFICATION_OF_RESULT ≡ 0xa0) × (LIST_OF_RESULT ≡ 0xa1) }
    // AccessResult, Write-Request and Write-Response
    ensures results { (FAILURE ≡ 0x80) × (SUCCESS ≡ 0x81) × (LIST_OF_DATA ≡ 0xa0) }
    // DeleteNamedVariableList-Request
    ensures deletions { (SCOPE_OF_DELETE ≡ 0x80) × (LIST_OF_NAME ≡ 0xa1) }
    // InformationReport
    ensures reports { (INFORMATION_REPORT ≡ 0xa0) × (REPORT_RESULTS ≡ 0xa0) }
{}
