//! How a control is operated, by number: ctlModel and sboClass (IEC 61850-7-2, control class model).

// ctlModel
pub const STATUS_ONLY: u8 = 0;

pub const SBO_NORMAL: u8 = 2;

pub const DIRECT_ENHANCED: u8 = 3;

pub const SBO_ENHANCED: u8 = 4;

// sboClass
pub const OPERATE_ONCE: u8 = 0;
