//! What comes of controls: acts, LastApplErrors and terminations (IEC 61850-7-2, the control class model).

use sv_base::{AssocNo, CtlNo, List, Octs, Value};

/// Why a command was refused (IEC 61850-8-1, LastApplError): the variable that was written, origin and ctlNum of the
/// command, and the AddCause (IEC 61850-7-2).
#[derive(Drop)]
pub struct ApplError {
    pub object: Octs,
    pub or_cat: i64,
    pub or_ident: Octs,
    pub ctl_num: u8,
    pub cause: u8,
}

/// The LastApplErrors that stand before a reply, in order.
pub type ApplErrors = List<ApplError>;

/// The end of a control with enhanced security (IEC 61850-7-2, CommandTermination): positive without an error, else
/// negative.
#[derive(Drop)]
pub struct Termination {
    pub control: CtlNo,
    /// the value of the Oper that ended
    pub oper: Value,
    pub error: Option<ApplError>,
}

/// A control that acts: the ctlVal of its Oper, and who asked.
#[derive(Drop)]
pub struct Act {
    pub control: CtlNo,
    pub value: Value,
    pub by: AssocNo,
}

/// The acts of one step, in order.
pub type Acts = List<Act>;
