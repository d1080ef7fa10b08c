//! What a line does to the reading.

use record_outcome::status::Status;

/// What a line does to the reading.
#[derive(Clone, Copy, Debug, PartialEq, Eq)]
pub enum Next {
    /// It goes on.
    On,
    /// It stops with a status.
    Stop(Status),
    /// It has come to the last line.
    End,
}
