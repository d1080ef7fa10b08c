//! What a block is told of its entries, and what it says.

/// The entries of a block at a moment.
#[derive(Clone, Copy, Debug, PartialEq, Eq)]
pub struct Retained {
    /// The number of the newest entry that is no longer retained, or 0.
    pub front: u64,
    /// The number of the newest entry, or 0.
    pub len: u64,
}

/// The report that comes next.
#[derive(Clone, Copy, Debug, PartialEq, Eq)]
pub struct Next {
    /// The number of its entry.
    pub id: u64,
    /// BufOvfl: entries before it were discarded unsent.
    pub ovfl: bool,
    /// SqNum.
    pub sq: u16,
}

/// What an accepted write brings about besides the block's own state.
#[derive(Clone, Copy, Debug, PartialEq, Eq)]
pub enum Effect {
    Nothing,
    /// The buffer is purged.
    Purge,
    /// The buffer is purged, and the integrity periods begin anew.
    PurgingChange,
    /// A general interrogation: an entry of all members.
    General,
    /// An association has enabled the block, which nobody had.
    Enabled,
    /// Nobody enables the block any longer.
    Disabled,
}
