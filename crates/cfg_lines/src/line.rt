//! What a line of a configuration says, and where it may stand.

use sv_base::{AttrDef, BlockDef, CtlDef, LnDef, Octs, SetDef, SgDef};

/// What a line says. What is made by it has its number, and the domain and logical node in which it stands.
#[derive(Drop)]
pub enum Line {
    /// It is empty, or a remark.
    Skip,
    Config,
    Server {
        vendor: Octs,
        model: Octs,
        revision: Octs,
    },
    Ld(Octs),
    Ln(LnDef),
    Attr(AttrDef),
    /// A data set, as yet without members.
    Set(SetDef),
    /// A member of the data set before it.
    Member(Octs),
    Brcb(BlockDef),
    Ctl(CtlDef),
    Sgcb(SgDef),
    End,
}

/// Where in a configuration a line stands, by the lines before it.
#[derive(Clone, Copy, Debug, PartialEq, Eq)]
pub enum Place {
    /// Before `config`.
    Start,
    /// After `config`.
    Configured,
    /// After `server`.
    Served,
    /// After `ld`.
    InDomain,
    /// In a logical node, and not in a data set.
    InNode,
    /// After `set`.
    InSet,
    /// After `member`.
    InMembers,
    /// After `end`.
    Ended,
}
