//! Why a client goes on no more.

ghost use Rattle.std.specs.Prelude.{◌≡◌};
ghost use Rattle.mms_client.specs.declared.fault.ClientFault.TheVariants.{Memory};
ghost use Rattle.mms_client.specs.Faults.{of_stack, code_of};

use mms_elements::PduFault;
use osi_stack::StackFault;
use std::alloc::AllocError;
use thiserror::Error;

/// Why a client goes on no more. Every later call answers it again.
#[derive(Clone, Copy, Debug, PartialEq, Eq, Error)]
pub enum ClientFault {
    /// The octets received begin no legal stream of a server. Layers 1 to 4 and their codes are those of [`StackFault`];
    /// layer 5 is MMS, with the number of the refusal of a PDU, 6 where a reply isn't the one that is awaited, or 7 where a
    /// segment doesn't go on with the report that was begun.
    #[error("the server's octets are refused at layer {layer} with code {code}")]
    Peer { layer: u8, code: u8 },
    /// The stream has ended, or the association was aborted, disconnected, or released without being asked.
    #[error("the server has ended")]
    Ended,
    /// A read failed.
    #[error("a read failed")]
    ReadFault,
    /// A write failed.
    #[error("a write failed")]
    WriteFault,
    /// There was no memory, or 1024 reports wait.
    #[error("out of memory")]
    Memory,
    /// The reply is an error of this class and code, or a reject, of class 255, with the code in its reason.
    #[error("the server refuses with class {class} and code {code}")]
    Service { class: u8, code: u8 },
}

impl From<AllocError> for ClientFault {
    ghost from_gives = { λ _ e. e ≡ Memory };

    fn from(_e: AllocError) -> ClientFault {
        ClientFault::Memory
    }
}

impl From<StackFault> for ClientFault {
    ghost from_gives = { λ f e. e ≡ of_stack f };

    fn from(fault: StackFault) -> ClientFault {
        match fault {
            StackFault::Memory => ClientFault::Memory,
            StackFault::Refused { layer, code, .. } => ClientFault::Peer { layer, code },
        }
    }
}

/// The number of a refusal of a PDU.
fn code_of(fault: PduFault) -> u8
    ensures { result ≡ code_of fault }
{
    match fault {
        PduFault::UnknownPdu => 1,
        PduFault::UnknownService(_) => 2,
        PduFault::Argument(_) => 3,
        PduFault::Invalid => 4,
        PduFault::SmallSize(_) => 5,
    }
}

impl From<PduFault> for ClientFault {
    ghost use Rattle.mms_client.specs.Faults.{of_pdu};

    ghost from_gives = { λ f e. e ≡ of_pdu f };

    fn from(fault: PduFault) -> ClientFault {
        ClientFault::Peer {
            layer: 5,
            code: code_of(fault),
        }
    }
}

/// A reply that isn't the one that is awaited.
pub const OTHER_REPLY: ClientFault = ClientFault::Peer { layer: 5, code: 6 };

/// A segment that doesn't go on with the report that was begun.
pub const BROKEN_REPORT: ClientFault = ClientFault::Peer { layer: 5, code: 7 };
