//! What a line of a record says.

use crate::pairs::Pairs;
use sv_base::{AssocNo, Moment, Octs};

/// How an association is opened.
#[derive(Clone, Copy, Debug, PartialEq, Eq)]
pub enum OpenForm {
    /// It writes components of blocks, and takes reports as they are.
    Direct,
    /// It exchanges MMS PDUs (ISO 9506-2) of at most n octets, 1024 to 65000.
    Mms(u32),
    /// It sends a stream of octets, as TCP carries it (RFC 1006).
    Wire,
}

/// What a line of a record says. An association's number is also the actor and the writer.
#[derive(Debug, Drop)]
pub enum RecLine {
    /// It is empty, or a remark.
    Skip,
    /// The moment of the lines that follow.
    At(Moment),
    /// An association is opened.
    Open {
        a: AssocNo,
        form: OpenForm,
    },
    /// A direct association writes a component of a block.
    Write {
        a: AssocNo,
        block: Octs,
        comp: Octs,
        value: Octs,
    },
    /// A PDU of an MMS association, in hexadecimal.
    Pdu(AssocNo, Octs),
    /// A piece of the stream of a wire association, in hexadecimal.
    Piece(AssocNo, Octs),
    /// An association takes what waits for it.
    Take(AssocNo),
    /// An association is lost.
    Lost(AssocNo),
    /// The process sets attributes, one pair of a reference and a value or more.
    Set(Pairs),
    /// The execution of a control came to its end, well or not.
    Done(Octs, bool),
    /// The process blocks or unblocks a control.
    Block(Octs, bool),
    /// Time passes.
    Tick,
    /// The last line.
    End,
}
