//! The data sets and the report blocks of a bay as they are configured.

ghost use Rattle.std.specs.Prelude.{◌≡◌, IfOk, length, map};
ghost use Rattle.object_model.specs.Nodes.{node_rows};
ghost use Rattle.object_model.specs.Tables.{set_rows};
ghost use Rattle.data_sets.specs.Books.{opened as booked};
ghost use Rattle.value_store.specs.Opened.{opened};
ghost use Rattle.bay_config.specs.Servable.{IsServable, IsServedBlock};
ghost use Rattle.block_watch.specs.Watched.{IsWatching};
ghost use Rattle.bay_opening.specs.Opened.{seen, part_defined};

use block_watch::Watch;
use data_sets::SetBook;
use object_model::Model;
use report_block::ReportBlock;
use std::alloc::{AllocError, Global};
use sv_base::BlockDef;

/// How many members a data set, and so a report, has at most.
pub const MOST_MEMBERS: u32 = 256;

/// A block with an empty buffer, and memory for the members of any data set, of those too that clients may define.
fn part_of(alloc: Global, book: &SetBook, def: &BlockDef) -> Result<ReportBlock, AllocError>
    requires { IsServedBlock def.now }
    ensures { IfOk result (λ p. seen p ≡ part_defined book.now def.now) }
{
    let set = book.number_referred(def.dat_set.as_slice());
    ReportBlock::open(alloc, def, set, MOST_MEMBERS)
}

/// The blocks in the order of the configuration.
fn parts_of(alloc: Global, model: &Model, book: &SetBook) -> Result<Vec<ReportBlock>, AllocError>
    requires { IsServable model.now }
    ensures { IfOk result (λ v. map seen v.items ≡ map (part_defined book.now) model.now.blocks) }
{
    let mut parts = Vec::new(alloc);
    for def in model.config().blocks.as_slice() {
        parts.push(part_of(alloc, book, def)?)?;
    }
    Ok(parts)
}

/// The data sets, the blocks with the numbers of theirs, and what finds the blocks.
#[derive(Drop)]
pub(crate) struct Blocks {
    pub(crate) sets: SetBook,
    pub(crate) parts: Vec<ReportBlock>,
    pub(crate) watch: Watch,
}

/// The data sets and the blocks as they are configured, with the memory that notes need for n attributes.
pub(crate) fn blocks_made(alloc: Global, model: &Model, attrs: u32) -> Result<Blocks, AllocError>
    requires servable { IsServable model.now }
    requires attrs { attrs ≡ length (opened model.now) }
    ensures sets { IfOk result (λ b. b.sets ≡ booked (set_rows model.now)) }
    ensures parts { IfOk result (λ b. map seen b.parts.items
        ≡ map (part_defined (booked (set_rows model.now))) model.now.blocks) }
    ensures watch { IfOk result
        (λ b. IsWatching (node_rows model.now) b.sets attrs b.parts.items b.watch) }
{
    let sets = SetBook::open(alloc, model.sets())?;
    let Ok(parts) = parts_of(alloc, model, &sets) else {
        drop(sets);
        return Err(AllocError);
    };
    let Ok(watch) = Watch::open(alloc, attrs, &parts, &sets, model.nodes().as_slice()) else {
        drop(sets);
        drop(parts);
        return Err(AllocError);
    };
    Ok(Blocks { sets, parts, watch })
}
