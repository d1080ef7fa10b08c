//! The codes of TPDUs and of their parameters (ISO 8073, "Structure and encoding of TPDUs"), by their numbers.

ghost use Rattle.std.specs.Prelude.{◌≡◌};
ghost use Rattle.tpkt_cotp.specs.declared.codes.TheConstants.{CR, CC, DR, DT, ER, TPDU_SIZE};
ghost use Rattle.tpkt_cotp.specs.declared.codes.TheConstants.{CALLING, CALLED, END_OF_TSDU};

/// The codes of TPDUs and of their parameters (ISO 8073, "Structure and encoding of TPDUs"): the numbers of the code's table, which
/// the definitions of `tpkt_cotp` read too.
pub fn codes_of_tpdus_are_the_standards()
    // TPDU codes, with the credit of class 0
    ensures tpdus { (CR ≡ 0xe0) × (CC ≡ 0xd0) × (DR ≡ 0x80) × (DT ≡ 0xf0) × (ER ≡ 0x70) }
    // The variable part of a CR and of a CC: the size of TPDUs, the calling and the called transport selector
    ensures parameters { (TPDU_SIZE ≡ 0xc0) × (CALLING ≡ 0xc1) × (CALLED ≡ 0xc2) }
    // EOT, the highest bit of a DT's third octet
    ensures ends { (END_OF_TSDU ≡ 0x80) }
{}
