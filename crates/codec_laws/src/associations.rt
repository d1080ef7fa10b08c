//! The tags of APDUs and of their fields (ISO 8650-1, the module "ACSE-1"), by their numbers.

ghost use Rattle.std.specs.Prelude.{◌≡◌};
ghost use Rattle.acse_apdu.specs.declared.codes.TheConstants.{AARQ, AARE, RLRQ, RLRE};
ghost use Rattle.acse_apdu.specs.declared.codes.TheConstants.{APPLICATION_CONTEXT_NAME, RESULT};
ghost use Rattle.acse_apdu.specs.declared.codes.TheConstants.{RESULT_SOURCE_DIAGNOSTIC};
ghost use Rattle.acse_apdu.specs.declared.codes.TheConstants.{SERVICE_USER, USER_INFORMATION};
ghost use Rattle.acse_apdu.specs.declared.codes.TheConstants.{REASON, EXTERNAL, SINGLE_ASN1_TYPE};
ghost use Rattle.acse_apdu.specs.declared.codes.TheConstants.{INTEGER};
ghost use Rattle.acse_apdu.specs.declared.codes.TheConstants.{OBJECT_IDENTIFIER};

/// The tags of APDUs and of their fields (ISO 8650-1, the module "ACSE-1"): the numbers of the code's table, which the definitions of
/// `acse_apdu` read too.
pub fn tags_of_apdus_are_the_standards()
    // ACSE-apdu: [APPLICATION 0] to [APPLICATION 3]
    ensures apdus { (AARQ ≡ 0x60) × (AARE ≡ 0x61) × (RLRQ ≡ 0x62) × (RLRE ≡ 0x63) }
    // AARQ-apdu and AARE-apdu: [1], [2], [3] with acse-service-user, [1], and [30]
    ensures fields { (APPLICATION_CONTEXT_NAME ≡ 0xa1) × (RESULT ≡ 0xa2)
        × (RESULT_SOURCE_DIAGNOSTIC ≡ 0xa3) ×
        (SERVICE_USER ≡ 0xa1) × (USER_INFORMATION ≡ 0xbe) }
    // RLRQ-apdu and RLRE-apdu: [0]
    ensures releases { (REASON ≡ 0x80) }
    // EXTERNAL with single-ASN1-type, [0], and the universal tags below it (ITU-T X.690)
    ensures externals { (EXTERNAL ≡ 0x28) × (SINGLE_ASN1_TYPE ≡ 0xa0) × (INTEGER ≡ 0x02)
        × (OBJECT_IDENTIFIER ≡ 0x06) }
{}
