//! Why a text is no configuration.

ghost use Rattle.std.specs.Prelude.{◌≡◌};
ghost use Rattle.cfg_parser.specs.Kinds.{number_of};

use std::alloc::AllocError;
use thiserror::Error;

/// Why a line is refused.
#[derive(Clone, Copy, Debug, PartialEq, Eq, Error)]
pub enum Kind {
    /// Another first word or count of words, an empty word, or an octet outside 20 to 7E.
    #[error("no line begins so, or not with so many words, or there is an octet outside 20 to 7E")]
    Word,
    /// A line that is not allowed there, or an input that ends before `end`.
    #[error("not allowed here, or the text ends before `end`")]
    Order,
    /// A word that is not the name, path or reference that stands there.
    #[error("a word that is not the name, path or reference that stands there")]
    Name,
    /// A name that is taken.
    #[error("a name that is taken")]
    Duplicate,
    /// A word that is no type.
    #[error("a word that is no type")]
    TypeName,
    /// A word that is no row of trigger options.
    #[error("a word that is no row of trigger options")]
    Flags,
    /// A word that is no value of the type.
    #[error("a word that is no value of the type")]
    Value,
    /// A word that is no number, or one out of range.
    #[error("a word that is no number, or one out of range")]
    Number,
    /// The name of a set or of a node that is not there.
    #[error("the name of a data set or node that is not there")]
    Unknown,
    /// A line, a word, an item name or a reference that is too long.
    #[error("a line, word, item name or reference that is too long")]
    Long,
    /// One more than there may be.
    #[error("one more than there may be")]
    Many,
    /// A member that no data set may have, or whose Data may be too long.
    #[error("a member that no data set may have, or whose Data may be above 500 octets")]
    Member,
}

impl Kind {
    /// Its number, 1 to 12.
    pub fn number(self) -> u8
        ensures { result ≡ number_of self }
    {
        match self {
            Kind::Word => 1,
            Kind::Order => 2,
            Kind::Name => 3,
            Kind::Duplicate => 4,
            Kind::TypeName => 5,
            Kind::Flags => 6,
            Kind::Value => 7,
            Kind::Number => 8,
            Kind::Unknown => 9,
            Kind::Long => 10,
            Kind::Many => 11,
            Kind::Member => 12,
        }
    }
}

/// Why a text is no configuration.
#[derive(Clone, Copy, Debug, PartialEq, Eq, Error)]
pub enum CfgFault {
    /// The first line that is refused, counted from 1, and why.
    #[error("line {line}: {kind}")]
    Refused { line: u32, kind: Kind },
    /// There was no memory.
    #[error("no memory")]
    Memory,
}

impl From<AllocError> for CfgFault {
    ghost use Rattle.cfg_parser.specs.declared.fault.CfgFault.TheVariants.{Memory};

    ghost from_gives = { λ _ e. e ≡ Memory };

    fn from(_error: AllocError) -> CfgFault {
        CfgFault::Memory
    }
}

/// Why a line can't be told.
#[derive(Clone, Copy, Debug, PartialEq, Eq)]
pub enum LineFault {
    Refused(Kind),
    Memory,
}

impl From<AllocError> for LineFault {
    ghost use Rattle.cfg_parser.specs.declared.fault.LineFault.TheVariants.{Memory};

    ghost from_gives = { λ _ e. e ≡ Memory };

    fn from(_error: AllocError) -> LineFault {
        LineFault::Memory
    }
}
