//! What waits for an association, and the ends of one.

use bay_model::Output;
use sv_base::{ActorNo, CtlNo, Owner};

/// An output that waits to be taken: a reply with the errors before it, or the termination of a control, positive or
/// negative.
#[derive(Drop)]
pub enum Waiting {
    Reply(Output),
    Termination(CtlNo, bool),
}

/// There are 16 replies already.
#[derive(Clone, Copy, Debug, PartialEq, Eq)]
pub struct Full;

/// The two ends of an open association, its greatest size of a PDU, and its address.
#[derive(Clone, Copy, Debug)]
pub struct Ends {
    /// Who opened it.
    pub opener: ActorNo,
    /// Who takes for it.
    pub writer: ActorNo,
    /// In octets, 1024 to 65000.
    pub size: u32,
    /// Its address.
    pub owner: Owner,
}
