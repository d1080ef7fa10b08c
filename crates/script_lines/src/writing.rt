//! A line among scripts is written.

ghost use Rattle.std.specs.Prelude.{◌≡◌, ◌++◌, length, take, OnOk, OnErr};
ghost use Rattle.script_lines.specs.Lines.{party_text, script_text, script_line_text};

use crate::line::ScriptLine;
use crate::party::Party;
use run_record::write_line;
use std::alloc::AllocError;
use text_words::push_number;

/// Adds the line with which a script begins.
fn push_party(out: &mut Vec<u8>, party: Party) -> Result<(), AllocError>
    ensures ok { OnOk result (out.new.items ≡ out.old.items ++ party_text party) }
    ensures err { OnErr result (take (length out.old.items) out.new.items ≡ out.old.items) }
{
    match party {
        Party::Association(a) => {
            out.extend_from_slice(b"script association")?;
            push_number(out, u64::from(a.0))
        }
        Party::Process => out.extend_from_slice(b"script process"),
    }
}

/// Adds the text of a line with its newline.
fn push_line(out: &mut Vec<u8>, line: &ScriptLine) -> Result<(), AllocError>
    ensures ok { OnOk result (out.new.items ≡ out.old.items ++ script_line_text line.now) }
    ensures err { OnErr result (take (length out.old.items) out.new.items ≡ out.old.items) }
{
    match line {
        ScriptLine::Begins(party) => {
            push_party(out, *party)?;
            out.push(b'\n')?;
            Ok(())
        }
        ScriptLine::Closes => out.extend_from_slice(b"close\n"),
        ScriptLine::Step(line) => write_line(line, out),
    }
}

/// Adds the text of a line and its newline. Fails only when out of memory, and then `out` stays as it was.
pub fn write_script_line(line: &ScriptLine, out: &mut Vec<u8>) -> Result<(), AllocError>
    ensures ok { OnOk result (out.new.items ≡ out.old.items ++ script_line_text line.now) }
    ensures err { OnErr result (out.new.items ≡ out.old.items) }
{
    let before = out.len();
    let done = push_line(out, line);
    if done.is_err() {
        out.truncate(before);
    }
    done
}
