//! The object identifiers of the protocols, by the octets of their contents (ITU-T X.690, 8.19).

ghost use Rattle.std.specs.Prelude.{◌≡◌, ◌∷◌, []};
ghost use Rattle.sv_base.specs.declared.object_ids.TheConstants.{BER, ACSE, MMS, MMS_CONTEXT};

/// The object identifiers of the protocols, by the octets of their contents (ITU-T X.690, 8.19): those of the code's table, which the
/// definitions of `session_pres` and of `acse_apdu` read too.
pub fn object_identifiers_are_the_standards()
    // 2.1.1 (ITU-T X.690, 12.2)
    ensures ber { BER ≡ 0x51 ∷ 0x01 ∷ [] }
    // 2.2.1.0.1 (ISO 8650-1)
    ensures acse { ACSE ≡ 0x52 ∷ 0x01 ∷ 0x00 ∷ 0x01 ∷ [] }
    // 1.0.9506.2.1 and 1.0.9506.2.3 (ISO 9506-2)
    ensures mms { MMS ≡ 0x28 ∷ 0xca ∷ 0x22 ∷ 0x02 ∷ 0x01 ∷ [] }
    ensures context { MMS_CONTEXT ≡ 0x28 ∷ 0xca ∷ 0x22 ∷ 0x02 ∷ 0x03 ∷ [] }
{}
