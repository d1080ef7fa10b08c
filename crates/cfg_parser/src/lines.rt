//! The lines of a text, one after another.

ghost use Rattle.std.specs.Prelude.{◌≡◌};
ghost use Rattle.cfg_parser.specs.Reader.{GivesNew, GivesText};
ghost use Rattle.cfg_parser.specs.Text.{lines_at, ended_at, next_at, fault_at};

use crate::fault::{CfgFault, Kind, LineFault};
use crate::telling;
use cfg_lines::Place;
use cfg_reading::Reading;
use smallvec::SmallVec;
use std::alloc::{AllocError, Global};
use text_words::split_line;

/// The most octets of a text for whose lines memory is made beforehand.
const MOST_ROOM: usize = 1 << 20;

/// What is after the last newline is nothing, and `end` was there.
fn finish(reading: Reading, rest: &[u8]) -> Result<Reading, CfgFault>
    ensures { GivesText result (ended_at reading rest.now) }
{
    if matches!(reading.place(), Place::Ended) && rest.is_empty() {
        return Ok(reading);
    }
    Err(CfgFault::Refused {
        line: reading.number(),
        kind: Kind::Order,
    })
}

/// The refusal of the line with this number.
fn at_line(number: u32, fault: LineFault) -> CfgFault
    ensures { result ≡ fault_at number fault }
{
    match fault {
        LineFault::Refused(kind) => CfgFault::Refused { line: number, kind },
        LineFault::Memory => CfgFault::Memory,
    }
}

/// Adds what the next line says.
fn read_line<'a>(
    alloc: Global,
    reading: &mut Reading,
    room: &mut Vec<u8>,
    words: &mut SmallVec<&'a [u8], 10>,
    text: &'a [u8],
) -> Result<(), CfgFault>
    ensures { GivesNew reading.new result (next_at reading.old text.now) }
{
    match telling::line(alloc, reading, room, words, text) {
        Ok(line) => match reading.add(alloc, line) {
            Ok(()) => Ok(()),
            Err(AllocError) => Err(CfgFault::Memory),
        },
        Err(fault) => Err(at_line(reading.number(), fault)),
    }
}

/// The lines of a configuration's text, each told by the lines before it, up to the line `end`.
///
/// Fails with the first line that is refused, counted from 1, and its kind: on one line Long, Word, Order and Many in this
/// order, then word by word. An input that ends before `end` is refused as Order at the line after the last. Nothing that a
/// line names is looked up. `Memory` is out of memory.
pub fn read_lines(alloc: Global, text: &[u8]) -> Result<Reading, CfgFault>
    ensures { GivesText result (lines_at text.now) }
{
    let octets = text.len().min(MOST_ROOM);
    let mut reading = Reading::with_capacity(alloc, octets)?;
    let mut room = Vec::new(alloc);
    let mut words = SmallVec::new(alloc);
    let mut rest = text;
    while let Some((line, after)) = split_line(rest) {
        match read_line(alloc, &mut reading, &mut room, &mut words, line) {
            Ok(()) => rest = after,
            Err(fault) => return Err(fault),
        }
    }
    finish(reading, rest)
}
