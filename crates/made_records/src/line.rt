//! The lines of a made record that are drawn.

ghost use Rattle.std.specs.Prelude.{◌≡◌, ◌++◌, OnOk, codes, decimal};
ghost use Rattle.made_records.specs.Texts.{line_octets, line_text};

use itoa::Buffer;
use std::alloc::AllocError;

/// What a drawn line does.
#[derive(Clone, Copy, Debug, PartialEq, Eq)]
pub enum MadeLine {
    /// The process sets the power.
    Power(u64),
    /// The process sets the indication.
    Indication(bool),
    /// The moment of the lines that follow.
    At(u64),
    /// The client takes.
    Take,
}

/// Adds words and a number.
fn push_numbered(out: &mut Vec<u8>, words: &[u8], n: u64) -> Result<(), AllocError>
    ensures { OnOk result (out.new.items ≡ out.old.items ++ (words.now ++ decimal n)) }
{
    out.extend_from_slice(words)?;
    out.extend_from_slice(Buffer::new().format(n).as_bytes())
}

/// Adds what a line says, without a newline.
pub fn push_octets(out: &mut Vec<u8>, line: MadeLine) -> Result<(), AllocError>
    ensures { OnOk result (out.new.items ≡ out.old.items ++ line_octets line) }
{
    match line {
        MadeLine::Power(n) => push_numbered(out, b"set BAY1/MMXU1$MX$TotW$mag$i ", n),
        MadeLine::Indication(true) => out.extend_from_slice(b"set BAY1/GGIO1$ST$Ind1$stVal T"),
        MadeLine::Indication(false) => out.extend_from_slice(b"set BAY1/GGIO1$ST$Ind1$stVal F"),
        MadeLine::At(moment) => push_numbered(out, b"at ", moment),
        MadeLine::Take => out.extend_from_slice(b"take 1"),
    }
}

/// Adds a line.
pub fn push_line(out: &mut Vec<u8>, line: MadeLine) -> Result<(), AllocError>
    ensures { OnOk result (out.new.items ≡ out.old.items ++ line_text line) }
{
    push_octets(out, line)?;
    out.extend_from_slice(b"\n")
}
