//! A line whose parts are in their ranges.

use osi_stack::Line;
use std::marker::Model;

/// What was agreed on a connection. Contracts see it as the line.
#[derive(Clone, Copy, Debug)]
pub struct SoundLine {
    line: Line,
}

impl Model for SoundLine {
    ghost use Rattle.osi_stack.specs.declared.events.Line.{Line};
    ghost use Rattle.osi_stack.specs.Lines.{IsLine};

    ghost Value = { Line };

    ghost view = { λ l. l.line };

    ghost invariant = { λ l. IsLine l.line };

    ghost inverse = { λ l. record { line = l } };
}

impl SoundLine {
    ghost use Rattle.std.specs.Prelude.{◌≡◌};
    ghost use Rattle.osi_stack.specs.Lines.{IsLine};

    /// The line.
    pub fn new(line: Line) -> SoundLine
        requires { IsLine line }
        ensures { result ≡ line }
    {
        SoundLine { line }
    }

    /// The line.
    pub fn get(&self) -> Line
        ensures same { result ≡ self.now }
        ensures sound { IsLine result }
    {
        self.line
    }
}
