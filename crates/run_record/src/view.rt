//! What a line says, with its words lent.

ghost use Rattle.std.specs.Prelude.{◌≡◌, IfOk};
ghost use Rattle.run_record.specs.declared.line.RecLine.TheVariants.{Write};

use crate::line::{OpenForm, RecLine};
use crate::pairs::{Pair, Pairs};
use crate::words::Words;
use std::alloc::{AllocError, Global};
use sv_base::{AssocNo, Moment, Octs};

/// The reference of an attribute, and the value that it is set to, both as texts that are lent.
#[derive(Clone, Copy, Debug)]
pub struct PairView<'a> {
    pub name: &'a [u8],
    pub value: &'a [u8],
}

/// The pairs of one line that are left, in order.
#[derive(Clone, Copy, Debug)]
pub struct PairsView<'a> {
    words: Words<'a>,
}

/// What a line of a record says, as `RecLine` does, with its words lent by the line's text.
#[derive(Clone, Copy, Debug)]
pub enum LineView<'a> {
    Skip,
    At(Moment),
    Open {
        a: AssocNo,
        form: OpenForm,
    },
    Write {
        a: AssocNo,
        block: &'a [u8],
        comp: &'a [u8],
        value: &'a [u8],
    },
    Pdu(AssocNo, &'a [u8]),
    Piece(AssocNo, &'a [u8]),
    Take(AssocNo),
    Lost(AssocNo),
    Set(PairsView<'a>),
    Done(&'a [u8], bool),
    Block(&'a [u8], bool),
    Tick,
    End,
}

impl<'a> PairsView<'a> {
    ghost use Rattle.std.specs.Prelude.{◌≡◌, ◌∷◌, [], MatchOption, IfNone, IfOk};
    ghost use Rattle.run_record.specs.Contents.{paired};
    ghost use Rattle.run_record.specs.Seen.{words_left, pair_seen, pairs_seen};

    /// The words two by two.
    pub(crate) fn of(words: Words<'a>) -> Self
        ensures { pairs_seen result ≡ paired (words_left words.entry) }
    {
        PairsView { words }
    }

    /// Takes the next pair; none exactly where no pair is left.
    pub fn next(&mut self) -> Option<PairView<'a>>
        ensures pair { MatchOption result (pairs_seen self.old ≡ []) (λ pair. pairs_seen self.old
            ≡ pair_seen pair ∷ pairs_seen self.new) }
        ensures none { IfNone result (pairs_seen self.new ≡ []) }
    {
        let name = self.words.next()?;
        let value = self.words.next()?;
        Some(PairView { name, value })
    }

    /// The pairs, with words of their own.
    pub fn to_pairs(&self, alloc: Global) -> Result<Pairs, AllocError>
        ensures { IfOk result (λ pairs. pairs ≡ pairs_seen self.now) }
    {
        let mut pairs = Vec::new(alloc);
        let mut rest = *self;
        while let Some(pair) = rest.next() {
            pairs.push(Pair {
                name: Octs::copied(alloc, pair.name)?,
                value: Octs::copied(alloc, pair.value)?,
            })?;
        }
        Ok(Pairs::from_vec(pairs))
    }
}

/// A write, with words of its own.
fn written(
    alloc: Global,
    a: AssocNo,
    block: &[u8],
    comp: &[u8],
    value: &[u8],
) -> Result<RecLine, AllocError>
    ensures { IfOk result (λ line. line ≡ Write a block.now comp.now value.now) }
{
    Ok(RecLine::Write {
        a,
        block: Octs::copied(alloc, block)?,
        comp: Octs::copied(alloc, comp)?,
        value: Octs::copied(alloc, value)?,
    })
}

impl<'a> LineView<'a> {
    ghost use Rattle.std.specs.Prelude.{◌≡◌, IfOk};
    ghost use Rattle.run_record.specs.Seen.{line_seen};

    /// The same line, with words of its own.
    pub fn to_line(&self, alloc: Global) -> Result<RecLine, AllocError>
        ensures { IfOk result (λ line. line ≡ line_seen self.now) }
    {
        match *self {
            LineView::Skip => Ok(RecLine::Skip),
            LineView::At(moment) => Ok(RecLine::At(moment)),
            LineView::Open { a, form } => Ok(RecLine::Open { a, form }),
            LineView::Write {
                a,
                block,
                comp,
                value,
            } => written(alloc, a, block, comp, value),
            LineView::Pdu(a, hex) => Ok(RecLine::Pdu(a, Octs::copied(alloc, hex)?)),
            LineView::Piece(a, hex) => Ok(RecLine::Piece(a, Octs::copied(alloc, hex)?)),
            LineView::Take(a) => Ok(RecLine::Take(a)),
            LineView::Lost(a) => Ok(RecLine::Lost(a)),
            LineView::Set(pairs) => Ok(RecLine::Set(pairs.to_pairs(alloc)?)),
            LineView::Done(control, well) => Ok(RecLine::Done(Octs::copied(alloc, control)?, well)),
            LineView::Block(control, on) => Ok(RecLine::Block(Octs::copied(alloc, control)?, on)),
            LineView::Tick => Ok(RecLine::Tick),
            LineView::End => Ok(RecLine::End),
        }
    }
}
