//! What a line among scripts says.

use crate::party::Party;
use run_record::{LineView, RecLine};

/// What a line among scripts says.
#[derive(Debug, Drop)]
pub enum ScriptLine {
    /// A script begins.
    Begins(Party),
    /// It ends.
    Closes,
    /// A line of a record.
    Step(RecLine),
}

/// The same, with its words lent by the line's text.
#[derive(Clone, Copy, Debug)]
pub enum ScriptView<'a> {
    Begins(Party),
    Closes,
    Step(LineView<'a>),
}
