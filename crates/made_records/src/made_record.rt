//! A made record, a piece at a time.

ghost use Rattle.std.specs.Prelude.{◌≡◌, ◌≢◌, ◌↔◌, ◌≤◌, ◌<◌, ◌+◌, ◌*◌, ◌^◌, ◌++◌, [], length};
ghost use Rattle.std.specs.Prelude.{IsTrue, IfOk, OnOk, OnErr};
ghost use Rattle.made_records.specs.Made.{draw_after};
ghost use Rattle.made_records.specs.Texts.{lines_text, made_record};

use crate::draw::Draw;
use crate::line::push_line;
use crate::opening::push_opening;
use std::alloc::AllocError;
use std::marker::Model;

/// The most drawn lines of a piece.
const LINES: u32 = 256;

/// Adds n drawn lines, and answers how the drawing goes on.
fn push_lines(out: &mut Vec<u8>, from: Draw, count: u32) -> Result<Draw, AllocError>
    requires { from.moment + 499 * count < 2 ^ 60 }
    ensures text { OnOk result (out.new.items ≡ out.old.items ++ lines_text count from) }
    ensures draw { IfOk result (λ d. d ≡ draw_after count from) }
    ensures moment { IfOk result (λ d. d.moment ≤ from.moment + 499 * count) }
{
    let mut draw = from;
    for turn in 0..count {
        let line = draw.next();
        push_line(out, line)?;
    }
    Ok(draw)
}

/// What comes next.
#[derive(Clone, Copy, Debug)]
pub enum Part {
    Opening,
    Lines,
    Nothing,
}

/// What is left of a made record. Contracts see its octets.
#[derive(Debug, Drop)]
pub struct MadeRecord {
    part: Part,
    draw: Draw,
    count: u32,
}

impl Model for MadeRecord {
    ghost use Rattle.std.specs.Prelude.{ℕ, List, ◌+◌, ◌*◌, ◌<◌, ◌^◌};
    ghost use Rattle.made_records.specs.Left.{octets_left};

    ghost Value = { List ℕ };

    ghost view = { λ r. octets_left r.part r.draw r.count };

    ghost invariant = { λ r. r.draw.moment + 499 * r.count < 2 ^ 60 };
}

impl MadeRecord {
    /// The record of a seed with n drawn lines, whole.
    pub fn new(seed: u64, count: u32) -> Self
        ensures { result ≡ made_record seed count }
    {
        MadeRecord {
            part: Part::Opening,
            draw: Draw::new(seed),
            count,
        }
    }

    /// Nothing is left.
    #[tactic(auto, using(crate::proofs::Leaving::nothing_left))]
    pub fn is_empty(&self) -> bool
        ensures { IsTrue result ↔ self.now ≡ [] }
    {
        matches!(self.part, Part::Nothing)
    }

    /// Takes the next piece off the front, and puts it in place of what the buffer has; without memory nothing is taken.
    pub fn next_piece(&mut self, piece: &mut Vec<u8>) -> Result<(), AllocError>
        requires { self.old ≢ [] }
        ensures piece { OnOk result (self.old ≡ piece.new.items ++ self.new) }
        ensures less { OnOk result (length self.new < length self.old) }
        ensures few { OnOk result (length piece.new.items ≤ 12800) }
        ensures none { OnErr result (self.new ≡ self.old) }
    {
        piece.clear();
        match self.part {
            Part::Opening => {
                push_opening(piece)?;
                self.part = Part::Lines;
            }
            Part::Lines if self.count > 0 => {
                let count = self.count.min(LINES);
                self.draw = push_lines(piece, self.draw, count)?;
                self.count -= count;
            }
            _ => {
                piece.extend_from_slice(b"end\n")?;
                self.part = Part::Nothing;
            }
        }
        Ok(())
    }
}
