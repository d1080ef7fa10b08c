//! Codes on the wire: TPDUs and their parameters (ISO 8073, "Structure and encoding of TPDUs").

/// CR, the code of a connection request ("Connection Request (CR) TPDU").
pub const CR: u8 = 0xe0;

/// CC, the code of a connection confirm ("Connection Confirm (CC) TPDU").
pub const CC: u8 = 0xd0;

/// DR, the code of a disconnect request ("Disconnect Request (DR) TPDU").
pub const DR: u8 = 0x80;

/// DT, the code of data ("Data (DT) TPDU").
pub const DT: u8 = 0xf0;

/// ER, the code of a TPDU error ("TPDU Error (ER) TPDU").
pub const ER: u8 = 0x70;

/// The parameter of a CR or a CC that says the TPDU size (variable part of a CR).
pub const TPDU_SIZE: u8 = 0xc0;

/// The parameter that says the calling transport selector (variable part of a CR).
pub const CALLING: u8 = 0xc1;

/// The parameter that says the called transport selector (variable part of a CR).
pub const CALLED: u8 = 0xc2;

/// The bit of a DT's third octet that ends its TSDU (fixed part of a DT, EOT).
pub const END_OF_TSDU: u8 = 0x80;
