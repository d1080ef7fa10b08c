//! The tags of Data and of TypeDescription (ISO 9506-2), by their numbers.

ghost use Rattle.std.specs.Prelude.{◌≡◌};
ghost use Rattle.mms_data.specs.declared.tags.TheConstants.{BOOLEAN, BIT_STRING, INTEGER, UNSIGNED};
ghost use Rattle.mms_data.specs.declared.tags.TheConstants.{OCTET_STRING, VISIBLE_STRING};
ghost use Rattle.mms_data.specs.declared.tags.TheConstants.{BINARY_TIME};
ghost use Rattle.mms_data.specs.declared.tags.TheConstants.{UTC_TIME, STRUCTURE, COMPONENTS};
ghost use Rattle.mms_data.specs.declared.tags.TheConstants.{COMPONENT, COMPONENT_NAME};
ghost use Rattle.mms_data.specs.declared.tags.TheConstants.{COMPONENT_TYPE};

/// The tags of Data and of TypeDescription (ISO 9506-2): the numbers of the code's
/// table, which the definitions of `mms_data` read too.
pub fn tags_of_data_are_the_standards()
    // Data and TypeDescription: [3] to [6], [9], [10], [12] and [17], and [2]
    ensures data { (BOOLEAN ≡ 0x83) × (BIT_STRING ≡ 0x84) × (INTEGER ≡ 0x85) × (UNSIGNED ≡ 0x86) ×
        (OCTET_STRING ≡ 0x89) × (VISIBLE_STRING ≡ 0x8a) × (BINARY_TIME ≡ 0x8c) × (UTC_TIME ≡ 0x91) ×
        (STRUCTURE ≡ 0xa2) }
    // The components of a structure's TypeDescription, [1], of which each is a SEQUENCE of a name, [0], and a type, [1]
    ensures types { (COMPONENTS ≡ 0xa1) × (COMPONENT ≡ 0x30) × (COMPONENT_NAME ≡ 0x80)
        × (COMPONENT_TYPE ≡ 0xa1) }
{}
