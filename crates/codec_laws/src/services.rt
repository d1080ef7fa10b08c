//! The codes by which reads, writes and requests are refused (ISO 9506-2, DataAccessError, ServiceError and RejectPDU), by their numbers.

ghost use Rattle.std.specs.Prelude.{◌≡◌};
ghost use Rattle.bay_model.specs.declared.access_errors.TheConstants as access_errors;
ghost use Rattle.bay_model.specs.declared.deletion_scopes.TheConstants as deletion_scopes;
ghost use Rattle.bay_model.specs.declared.object_classes.TheConstants as object_classes;
ghost use Rattle.bay_model.specs.declared.service_errors.TheConstants as service_errors;
ghost use Rattle.mms_pdu.specs.declared.reject_reasons.TheConstants as reject_reasons;

/// The codes by which reads, writes and requests are refused (ISO 9506-2, DataAccessError, ServiceError and RejectPDU), and those of
/// requests (ObjectClass, scopeOfDelete): the numbers of the code's tables, which the definitions of `bay_model` and of `mms_pdu` read
/// too.
pub fn codes_of_services_are_the_standards()
    // DataAccessError
    ensures access_errors { (access_errors.TEMPORARILY_UNAVAILABLE ≡ 2)
        × (access_errors.OBJECT_ACCESS_DENIED ≡ 3) ×
        (access_errors.TYPE_INCONSISTENT ≡ 7) × (access_errors.OBJECT_ATTRIBUTE_INCONSISTENT ≡ 8) ×
        (access_errors.OBJECT_ACCESS_UNSUPPORTED ≡ 9) × (access_errors.OBJECT_NON_EXISTENT ≡ 10) ×
        (access_errors.OBJECT_VALUE_INVALID ≡ 11) }
    // ServiceError, errorClass
    ensures classes { (service_errors.DEFINITION ≡ 2) × (service_errors.RESOURCE ≡ 3)
        × (service_errors.SERVICE ≡ 4) ×
        (service_errors.ACCESS ≡ 7) }
    // the codes of definition, resource, service and access
    ensures definition { service_errors.OBJECT_EXISTS ≡ 5 }
    ensures resource { service_errors.RESOURCE_OTHER ≡ 0 }
    ensures service { service_errors.PDU_SIZE ≡ 3 }
    ensures access { (service_errors.OBJECT_NON_EXISTENT ≡ 2)
        × (service_errors.OBJECT_ACCESS_DENIED ≡ 3) }
    // ObjectClass, and scopeOfDelete of DeleteNamedVariableList-Request
    ensures object_classes { (object_classes.NAMED_VARIABLE ≡ 0)
        × (object_classes.NAMED_VARIABLE_LIST ≡ 2) ×
        (object_classes.DOMAIN ≡ 9) }
    ensures deletions { deletion_scopes.SPECIFIC ≡ 0 }
    // RejectPDU, the codes of pdu-error and of confirmed-requestPDU
    ensures pdu_errors { (reject_reasons.UNKNOWN_PDU_TYPE ≡ 0) × (reject_reasons.INVALID_PDU ≡ 1) }
    ensures requests { (reject_reasons.UNRECOGNIZED_SERVICE ≡ 1)
        × (reject_reasons.INVALID_ARGUMENT ≡ 4) }
{}
