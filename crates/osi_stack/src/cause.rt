//! Why octets are not taken: one table of the layers' refusals.

ghost use Rattle.std.specs.Prelude.{◌≡◌};
ghost use Rattle.osi_stack.specs.declared.cause.Stop.TheVariants.{Memory, Refused};
ghost use Rattle.osi_stack.specs.Causes.{number_at, layer_at, refused_at, of_session};
ghost use Rattle.osi_stack.specs.Causes.{of_association, of_initiate, transport_stop};

use acse_apdu::AcFault;
use mms_elements::PduFault;
use session_pres::SpFault;
use std::alloc::AllocError;
use tpkt_cotp::TpFault;

/// A layer, 1 to 4, and the number of its refusal, from 1 in the order of its tests.
#[derive(Clone, Copy, Debug)]
pub struct Cause {
    pub layer: u8,
    pub code: u8,
}

/// Why octets are not taken.
#[derive(Clone, Copy, Debug)]
pub enum Stop {
    /// There was no memory.
    Memory,
    /// A layer refuses them.
    Refused(Cause),
}

impl From<AllocError> for Stop {
    ghost from_gives = { λ _ e. e ≡ Memory };

    fn from(_e: AllocError) -> Stop {
        Stop::Memory
    }
}

/// A refusal of one of the layers.
#[derive(Clone, Copy)]
pub enum LayerFault {
    Transport(TpFault),
    Session(SpFault),
    Association(AcFault),
    Initiate(PduFault),
}

/// The layer: 1 the transport, 2 session and presentation, 3 association control, 4 the initiate of MMS.
fn layer_of(fault: LayerFault) -> u8
    ensures { result ≡ layer_at fault }
{
    match fault {
        LayerFault::Transport(_) => 1,
        LayerFault::Session(_) => 2,
        LayerFault::Association(_) => 3,
        LayerFault::Initiate(_) => 4,
    }
}

/// The number of a refusal in its layer, from 1 in the order of the layer's tests. Want of memory is no refusal, and 0.
fn number_of(fault: LayerFault) -> u8
    ensures { result ≡ number_at fault }
{
    match fault {
        LayerFault::Transport(TpFault::Version) => 1,
        LayerFault::Transport(TpFault::Length) => 2,
        LayerFault::Transport(TpFault::Tpdu) => 3,
        LayerFault::Transport(TpFault::Class) => 4,
        LayerFault::Transport(TpFault::Sequence) => 5,
        LayerFault::Transport(TpFault::TsduLimit) => 6,
        LayerFault::Transport(TpFault::Memory) => 0,
        LayerFault::Session(SpFault::Spdu) => 1,
        LayerFault::Session(SpFault::Parameter) => 2,
        LayerFault::Session(SpFault::Mode) => 3,
        LayerFault::Session(SpFault::NoAcseContext) => 4,
        LayerFault::Session(SpFault::NoMmsContext) => 5,
        LayerFault::Session(SpFault::Pdv) => 6,
        LayerFault::Association(AcFault::Apdu) => 1,
        LayerFault::Association(AcFault::ContextName) => 2,
        LayerFault::Association(AcFault::NoUserInformation) => 3,
        LayerFault::Initiate(PduFault::UnknownPdu) => 1,
        LayerFault::Initiate(PduFault::UnknownService(_)) => 2,
        LayerFault::Initiate(PduFault::Argument(_)) => 3,
        LayerFault::Initiate(PduFault::Invalid) => 4,
        LayerFault::Initiate(PduFault::SmallSize(_)) => 5,
    }
}

fn refused(fault: LayerFault) -> Stop
    ensures { result ≡ Refused (refused_at fault) }
{
    Stop::Refused(Cause {
        layer: layer_of(fault),
        code: number_of(fault),
    })
}

impl From<TpFault> for Stop {
    ghost from_gives = { λ f e. e ≡ transport_stop f };

    fn from(fault: TpFault) -> Stop {
        match fault {
            TpFault::Memory => Stop::Memory,
            _ => refused(LayerFault::Transport(fault)),
        }
    }
}

impl From<SpFault> for Stop {
    ghost from_gives = { λ f e. e ≡ Refused (of_session f) };

    fn from(fault: SpFault) -> Stop {
        refused(LayerFault::Session(fault))
    }
}

impl From<AcFault> for Stop {
    ghost from_gives = { λ f e. e ≡ Refused (of_association f) };

    fn from(fault: AcFault) -> Stop {
        refused(LayerFault::Association(fault))
    }
}

impl From<PduFault> for Stop {
    ghost from_gives = { λ f e. e ≡ Refused (of_initiate f) };

    fn from(fault: PduFault) -> Stop {
        refused(LayerFault::Initiate(fault))
    }
}
