//! The tags of responses alone (ISO 9506-2, Confirmed-ResponsePDU and the productions below it), by their numbers.

ghost use Rattle.std.specs.Prelude.{◌≡◌};
ghost use Rattle.bay_answers.specs.declared.tags.TheConstants.{STATUS, IDENTIFY, DEFINE_LIST};
ghost use Rattle.bay_answers.specs.declared.tags.TheConstants.{LIST_OF_IDENTIFIER, MORE_FOLLOWS};
ghost use Rattle.bay_answers.specs.declared.tags.TheConstants.{VENDOR_NAME};
ghost use Rattle.bay_answers.specs.declared.tags.TheConstants.{MODEL_NAME, REVISION, MMS_DELETABLE};
ghost use Rattle.bay_answers.specs.declared.tags.TheConstants.{TYPE_DESCRIPTION, LIST_OF_VARIABLE};
ghost use Rattle.bay_answers.specs.declared.tags.TheConstants.{NUMBER_MATCHED, NUMBER_DELETED};

/// The tags of responses alone (ISO 9506-2, Confirmed-ResponsePDU and the productions below it): the numbers of the code's
/// table, which the definitions of `bay_answers` read too.
pub fn tags_of_answers_are_the_standards()
    // ConfirmedServiceResponse, where a response's is another than its request's
    ensures services { (STATUS ≡ 0xa0) × (IDENTIFY ≡ 0xa2) × (DEFINE_LIST ≡ 0x8b) }
    // GetNameList-Response
    ensures name_lists { (LIST_OF_IDENTIFIER ≡ 0xa0) × (MORE_FOLLOWS ≡ 0x81) }
    // Identify-Response
    ensures identities { (VENDOR_NAME ≡ 0x80) × (MODEL_NAME ≡ 0x81) × (REVISION ≡ 0x82) }
    // GetVariableAccessAttributes-Response and GetNamedVariableListAttributes-Response
    ensures attributes { (MMS_DELETABLE ≡ 0x80) × (TYPE_DESCRIPTION ≡ 0xa2)
        × (LIST_OF_VARIABLE ≡ 0xa1) }
    // DeleteNamedVariableList-Response
    ensures deletions { (NUMBER_MATCHED ≡ 0x80) × (NUMBER_DELETED ≡ 0x81) }
{}
