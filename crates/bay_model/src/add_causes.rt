//! Why a command is refused, or ends badly (IEC 61850-7-2, AddCause).

pub const NOT_SUPPORTED: u8 = 1;

pub const BLOCKED_BY_PROCESS: u8 = 9;

pub const COMMAND_ALREADY_IN_EXECUTION: u8 = 12;

pub const TIME_LIMIT_OVER: u8 = 16;

pub const OBJECT_NOT_SELECTED: u8 = 18;

pub const OBJECT_ALREADY_SELECTED: u8 = 19;

pub const INCONSISTENT_PARAMETERS: u8 = 26;

pub const LOCKED_BY_OTHER_CLIENT: u8 = 27;
