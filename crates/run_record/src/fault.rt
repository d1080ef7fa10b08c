//! Why a line of a record is refused.

ghost use Rattle.std.specs.Prelude.{◌≡◌};
ghost use Rattle.run_record.specs.Judging.{number_of};

use thiserror::Error;

/// Why a line of a record is refused. Of several causes on one line the first of these counts; reading alone refuses a line as
/// Long, Word or Number, and a server that it is applied to for the others.
#[derive(Clone, Copy, Debug, PartialEq, Eq, Error)]
pub enum Kind {
    /// It is longer than 140100 octets, or has an octet outside 20 to 7E.
    #[error("a line above 140100 octets, or an octet outside 20 to 7E")]
    Long,
    /// Another first word or count of words, an empty word, or a word that is not the one that stands there.
    #[error("no line begins so, or not with so many words, or a word is another than stands there")]
    Word,
    /// A word that is no number, or one out of range.
    #[error("a word that is no number, or one out of range")]
    Number,
    /// A reference, a block, a component or a control that is not there.
    #[error("a reference, a block, a component or a control that is not there")]
    Name,
    /// An association that is open, or is not.
    #[error("an association that is open already, or is not")]
    State,
    /// A word that is no value of the attribute's type, or of no shape of a value.
    #[error("a word that is no value of the type")]
    Value,
    /// A word that is no hexadecimal.
    #[error("a word that is no hexadecimal")]
    Hex,
    /// The input ends before the line `end` is whole.
    #[error("the input ends before `end`")]
    NoEnd,
}

impl Kind {
    /// Its number, 1 to 8.
    pub fn number(self) -> u8
        ensures { result ≡ number_of self }
    {
        match self {
            Kind::Word => 1,
            Kind::Number => 2,
            Kind::Name => 3,
            Kind::Value => 4,
            Kind::State => 5,
            Kind::Hex => 6,
            Kind::NoEnd => 7,
            Kind::Long => 8,
        }
    }
}

/// Why no line is read.
#[derive(Clone, Copy, Debug, PartialEq, Eq, Error)]
pub enum RecFault {
    /// The line is refused.
    #[error("{0}")]
    Refused(Kind),
    /// There was no memory.
    #[error("no memory")]
    Memory,
}
