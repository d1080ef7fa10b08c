//! How the sides of an association end.

/// How a side that writes ended.
#[derive(Clone, Copy, Debug, PartialEq, Eq)]
pub enum WriteEnd {
    /// The association isn't open any more.
    Closed,
    /// The sink failed.
    WriteFault,
    /// There was no association, so the side never ran.
    Idle,
    /// A take was refused: another actor takes for the association.
    Foreign,
    /// The pass had no turn left.
    Ended,
    /// Out of memory.
    Memory,
}
