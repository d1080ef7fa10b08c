//! Where a connection stands between two TSDUs.

use crate::events::{Event, Line};

/// Where a connection stands between two TSDUs.
#[derive(Clone, Copy, Debug)]
pub enum Phase {
    /// This side was called, and nothing has come.
    Idle,
    /// A CR has come, with this exponent of its greatest TPDU; a CONNECT is awaited.
    Called(u8),
    /// This side was called, and the association is there, with this number of the presentation context of association
    /// control.
    Open(Line, u32),
    /// This side calls, and will propose PDUs of at most this size; a CC is awaited.
    Calling(u32),
    /// A CC has come, with this exponent, and PDUs of at most this size were proposed; an ACCEPT is awaited.
    Asking(u8, u32),
    /// This side has called, and the association is there.
    Joined(Line),
    /// The association was released or aborted: what follows is disregarded.
    Ended,
}

/// The phase that follows, and what is told of it.
pub type Transition = (Phase, Option<Event>);
