//! How a run of the program ends.

use std::alloc::AllocError;
use std::fmt::{Display, Error, Formatter, Write};

/// How a run of the program ended.
#[derive(Clone, Copy, Debug, PartialEq, Eq)]
pub enum Status {
    /// The record was read to its end.
    Ok,
    /// The words aren't those of a command.
    Words,
    /// A line of the record is refused.
    Record { line: u64, kind: u8 },
    /// A line of the configuration is refused.
    Config { line: u64, kind: u8 },
    /// A limit is passed in a line of the record: 3 for its octets.
    Limit { which: u8, line: u64 },
    /// There was no memory left.
    Memory,
    /// The source failed.
    ReadFault,
    /// The sink failed.
    WriteFault,
}

/// What was made of an input, or the status with which it is refused; or that memory ran out.
pub type Judged<T> = Result<Result<T, Status>, AllocError>;

impl Status {
    ghost use Rattle.std.specs.Prelude.{◌≡◌};
    ghost use Rattle.record_outcome.specs.Statuses.{number_of};

    /// The number that the program ends with.
    pub fn number(self) -> u8
        ensures { result ≡ number_of self }
    {
        match self {
            Status::Ok => 0,
            Status::Words => 1,
            Status::Record { .. } => 2,
            Status::Config { .. } => 3,
            Status::Limit { .. } => 4,
            Status::Memory => 5,
            Status::ReadFault => 6,
            Status::WriteFault => 7,
        }
    }
}

impl Display for Status {
    ghost use Rattle.std.specs.Prelude.{Some};
    ghost use Rattle.record_outcome.specs.Statuses.{words_of};

    ghost output = { λ s. Some (words_of s) };

    fn fmt<W: Write>(&self, f: &mut Formatter<W>) -> Result<(), Error> {
        match self {
            Status::Ok => write!(f, "ok"),
            Status::Words => write!(f, "words"),
            Status::Record { line, kind } => write!(f, "record line {line} kind {kind}"),
            Status::Config { line, kind } => write!(f, "config line {line} kind {kind}"),
            Status::Limit { which, line } => write!(f, "limit {which} line {line}"),
            Status::Memory => write!(f, "memory"),
            Status::ReadFault => write!(f, "read"),
            Status::WriteFault => write!(f, "write"),
        }
    }
}
