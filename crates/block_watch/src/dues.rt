//! When the blocks of a bay have something due (IEC 61850-7-2, BRCB attributes BufTm and IntgPd).

ghost use Rattle.std.specs.Prelude.{◌≡◌, false};
ghost use Rattle.report_block.specs.Due.{IsBefore};
ghost use Rattle.block_watch.specs.Dues.{AreFrom};

use report_block::earliest;
use std::alloc::{AllocError, Global};
use sv_base::Moment;

/// A moment has come; where there is none it never does.
pub fn has_come(due: Option<u64>, now: Moment) -> bool
    ensures late { result ≡ false → IsBefore now due }
    ensures come { IsBefore now due → result ≡ false }
{
    match due {
        Some(due) => due <= now.ms(),
        None => false,
    }
}

/// The least of moments in milliseconds since 1970, where there are any.
fn least_of(each: &[Option<u64>]) -> Option<u64>
    ensures { AreFrom result each.now }
{
    let mut least = None;
    for due in each {
        least = earliest(least, *due);
    }
    least
}

/// For each block the moment before which it has nothing due, in milliseconds since 1970, where it ever has, and one that isn't after
/// any of them. Contracts see those of the blocks.
#[derive(Drop)]
pub struct Dues {
    each: Vec<Option<u64>>,
    first: Option<u64>,
}

impl std::marker::Model for Dues {
    ghost use Rattle.std.specs.Prelude.{ℕ, List, Option};
    ghost use Rattle.block_watch.specs.Dues.{AreFrom};

    ghost Value = { List (Option ℕ) };

    ghost view = { λ d. d.each.items };

    ghost invariant = { λ d. AreFrom d.first d.each.items };
}

impl Dues {
    ghost use Rattle.std.specs.Prelude.{◌≡◌, ◌<◌, false, length, replicate, slice_get, slice_set};
    ghost use Rattle.std.specs.Prelude.{Some, IfOk};
    ghost use Rattle.block_watch.specs.Dues.{AreBefore};

    /// Of n blocks, each of which may have something due at once.
    pub fn open(alloc: Global, blocks: usize) -> Result<Dues, AllocError>
        ensures { IfOk result (λ d. d ≡ replicate blocks (Some 0)) }
    {
        let each = vec![in alloc; Some(0); blocks]?;
        Ok(Dues {
            each,
            first: Some(0),
        })
    }

    /// One of the moments has come, as far as is known without a look at each.
    pub fn have_come(&self, now: Moment) -> bool
        ensures { result ≡ false → AreBefore now self.now }
    {
        has_come(self.first, now)
    }

    /// The moment of a block.
    pub fn at(&self, place: usize) -> Option<u64>
        requires { place < length self.now }
        ensures { slice_get self.now place ≡ Some result }
    {
        self.each[place]
    }

    /// Another moment for a block.
    pub fn put(&mut self, place: usize, due: Option<u64>)
        requires { place < length self.old }
        ensures { self.new ≡ slice_set self.old place due }
    {
        self.each[place] = due;
        self.first = earliest(self.first, due);
    }

    /// Looks at each, so that nothing is taken to have come which hasn't.
    pub fn settle(&mut self)
        ensures { self.new ≡ self.old }
    {
        self.first = least_of(&self.each);
    }
}
