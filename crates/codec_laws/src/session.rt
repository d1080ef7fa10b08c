//! The codes of SPDUs and of their parameters (ISO 8327-1) and the tags of PPDUs (ISO 8823-1), by their numbers.

ghost use Rattle.std.specs.Prelude.{◌≡◌};
ghost use Rattle.session_pres.specs.declared.codes.TheConstants.{GIVE_TOKENS, DATA_TRANSFER};
ghost use Rattle.session_pres.specs.declared.codes.TheConstants.{FINISH, DISCONNECT, CONNECT};
ghost use Rattle.session_pres.specs.declared.codes.TheConstants.{ACCEPT, ABORT};
ghost use Rattle.session_pres.specs.declared.codes.TheConstants.{CONNECT_ACCEPT_ITEM, USER_DATA};
ghost use Rattle.session_pres.specs.declared.codes.TheConstants.{MODE_SELECTOR, MODE_VALUE};
ghost use Rattle.session_pres.specs.declared.codes.TheConstants.{NORMAL_MODE_PARAMETERS};
ghost use Rattle.session_pres.specs.declared.codes.TheConstants.{CONTEXT_DEFINITION_LIST};
ghost use Rattle.session_pres.specs.declared.codes.TheConstants.{CONTEXT_RESULT_LIST, RESULT};
ghost use Rattle.session_pres.specs.declared.codes.TheConstants.{TRANSFER_SYNTAX};
ghost use Rattle.session_pres.specs.declared.codes.TheConstants.{FULLY_ENCODED_DATA};
ghost use Rattle.session_pres.specs.declared.codes.TheConstants.{SINGLE_ASN1_TYPE, INTEGER};
ghost use Rattle.session_pres.specs.declared.codes.TheConstants.{OBJECT_IDENTIFIER, SEQUENCE, SET};

/// The codes of SPDUs and of their parameters (ISO 8327-1) and the tags of PPDUs (ISO 8823-1): the numbers of the code's table, which
/// the definitions of `session_pres` read too.
pub fn codes_of_sessions_are_the_standards()
    // SI fields; DATA TRANSFER has that of GIVE TOKENS, which stands before it
    ensures spdus { (GIVE_TOKENS ≡ 1) × (DATA_TRANSFER ≡ 1) × (FINISH ≡ 9) × (DISCONNECT ≡ 10)
        × (CONNECT ≡ 13) ×
        (ACCEPT ≡ 14) × (ABORT ≡ 25) }
    // PGI and PI fields: Connect/Accept Item and User Data
    ensures parameters { (CONNECT_ACCEPT_ITEM ≡ 5) × (USER_DATA ≡ 193) }
    // CP-type and CPA-PPDU: the mode, [0] with [0], and the normal mode's parameters, [2]
    ensures connects { (MODE_SELECTOR ≡ 0xa0) × (MODE_VALUE ≡ 0x80)
        × (NORMAL_MODE_PARAMETERS ≡ 0xa2) }
    // The list of contexts, [4], that of their results, [5], and of a result its value, [0], and its transfer syntax, [1]
    ensures contexts { (CONTEXT_DEFINITION_LIST ≡ 0xa4) × (CONTEXT_RESULT_LIST ≡ 0xa5)
        × (RESULT ≡ 0x80) ×
        (TRANSFER_SYNTAX ≡ 0x81) }
    // User-data: Fully-encoded-data, [APPLICATION 1], and of a PDV single-ASN1-type, [0]
    ensures user_data { (FULLY_ENCODED_DATA ≡ 0x61) × (SINGLE_ASN1_TYPE ≡ 0xa0) }
    // Universal tags (ITU-T X.690)
    ensures universal { (INTEGER ≡ 0x02) × (OBJECT_IDENTIFIER ≡ 0x06) × (SEQUENCE ≡ 0x30)
        × (SET ≡ 0x31) }
{}
