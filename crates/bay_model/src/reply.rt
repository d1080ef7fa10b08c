//! Replies to requests (ISO 9506-2, the responses of the confirmed services).

use crate::request::{SetName, Targets};
use crate::results::{Codes, Names, Nodes, Results};
use sv_base::NodeId;

/// The specification that is written back with what was read (ISO 9506-2, Read).
#[derive(Drop)]
pub enum Asked {
    No,
    Vars(Targets),
    Set(SetName),
}

/// The reply to a request (ISO 9506-2, the responses and errors of the confirmed services).
#[derive(Drop)]
pub enum Reply {
    Status,
    Identify,
    Conclude,
    Names(Names),
    TypeOfNode(NodeId),
    Read { asked: Asked, results: Results },
    Wrote(Codes),
    Defined,
    SetOf { deletable: bool, members: Nodes },
    Deleted { matched: u32, deleted: u32 },
    Error { class: u8, code: u8 },
    Reject(u8),
}
