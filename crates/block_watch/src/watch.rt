//! Which blocks and which members of their data sets the process touches (IEC 61850-7-2, DATA-SET and TrgOps).

ghost use Rattle.std.specs.Prelude.{◌≡◌, ◌≤◌, ◌<◌, ◌^◌, ℕ, OnOk, IfOk, length};
ghost use Rattle.std.specs.List.{All};
ghost use Rattle.object_model.specs.Nodes.{node_rows};
ghost use Rattle.touch_index.specs.Indexed.{block_at, pairs};
ghost use Rattle.block_watch.specs.Watched.{AreLent, IsLent, members_in, IsRoomier, IsWatchable};
ghost use Rattle.block_watch.specs.Watched.{IsIndexed, IsWatching, members_at, options_in};

use bay_model::{Comp, NodeRow, Trg};
use data_sets::SetBook;
use object_model::Model;
use report_block::ReportBlock;
use set_view::SetView;
use std::alloc::{AllocError, Global};
use sv_base::{BlockNo, NodeId};
use touch_index::{Filling, Index, Notes};

/// The index of the members of all data sets, the trigger options of each block, and memory for the notes of a point.
#[derive(Drop)]
pub struct Watch {
    pub index: Index,
    pub options: Vec<Trg>,
    pub notes: Notes,
}

/// The members of a block's data set.
pub fn set_of<'a>(book: &'a SetBook, model: &'a Model, part: &ReportBlock) -> SetView<'a>
    requires { IsLent (node_rows model.now) book.now part.now }
    ensures { result ≡ members_in (node_rows model.now) book.now part.now }
{
    book.view(part.set(), model.nodes().as_slice())
}

/// How many pairs of attribute and member a data set has.
fn pairs_of(set: &SetView<'_>) -> Result<u32, AllocError>
    ensures { IfOk result (λ n. n ≡ pairs set.now) }
{
    let mut sum: u32 = 0;
    for place in 0..set.len() {
        let Ok(count) = u32::try_from(set.member(place).attrs.len()) else {
            return Err(AllocError);
        };
        sum = sum.checked_add(count).ok_or(AllocError)?;
    }
    Ok(sum)
}

/// The most pairs of attribute and member that a data set has.
fn most_pairs(book: &SetBook, rows: &[NodeRow]) -> Result<u32, AllocError>
    requires { AreLent rows.now book.now }
    ensures { IfOk result (λ n. (k : ℕ) → k < length book.now.sets
        → pairs (members_at rows.now book.now k) ≤ n) }
{
    let mut most: u32 = 0;
    for number in 0..book.len() {
        most = most.max(pairs_of(&book.view(Some(number), rows))?);
    }
    Ok(most)
}

/// The members of all blocks' data sets, each in memory for the pairs of any data set.
fn filling_of(
    alloc: Global,
    attrs: u32,
    parts: &[ReportBlock],
    book: &SetBook,
    rows: &[NodeRow],
) -> Result<Filling, AllocError>
    requires few { length parts.now < 2 ^ 32 }
    requires lent { AreLent rows.now book.now }
    requires watchable { All (IsWatchable rows.now book.now attrs) parts.now }
    ensures { IfOk result (λ x. IsIndexed rows.now book.now attrs parts.now x) }
{
    let room = most_pairs(book, rows)?;
    let mut filling = Filling::open(alloc, parts.len() as u32, attrs, room)?;
    for b in 0..parts.len() {
        let set = book.view(parts[b].set(), rows);
        filling.put(BlockNo(b as u32), &set);
    }
    Ok(filling)
}

/// The index of the members of all blocks' data sets, each in memory for the pairs of any data set.
fn index_of(
    alloc: Global,
    attrs: u32,
    parts: &[ReportBlock],
    book: &SetBook,
    rows: &[NodeRow],
) -> Result<Index, AllocError>
    requires few { length parts.now < 2 ^ 32 }
    requires lent { AreLent rows.now book.now }
    requires watchable { All (IsWatchable rows.now book.now attrs) parts.now }
    ensures { IfOk result (λ x. IsIndexed rows.now book.now attrs parts.now x) }
{
    let filling = filling_of(alloc, attrs, parts, book, rows)?;
    Ok(filling.finish())
}

/// Reserves memory for n pairs in the index of every block.
fn reserve_all(index: &mut Index, blocks: u32, pairs: u32) -> Result<(), AllocError>
    requires { blocks ≡ length index.old.blocks }
    ensures grown { IsRoomier index.old index.new }
    ensures made { OnOk result ((b : ℕ) → b < length index.old.blocks
        → pairs ≤ (block_at index.new.blocks b).room) }
{
    for b in 0..blocks {
        index.reserve(BlockNo(b), pairs)?;
    }
    Ok(())
}

/// The trigger options of all blocks.
fn options_of(alloc: Global, parts: &[ReportBlock]) -> Result<Vec<Trg>, AllocError>
    ensures { IfOk result (λ v. v.items ≡ options_in parts.now) }
{
    let mut options = Vec::new(alloc);
    for part in parts {
        options.push(part.trg())?;
    }
    Ok(options)
}

impl Watch {
    ghost use Rattle.std.specs.Prelude.{◌≡◌, ◌≤◌, ◌<◌, ◌^◌, ℕ, IfOk, OnOk, length, slice_set};
    ghost use Rattle.set_view.specs.Shapes.{AreThere, shapes_of};
    ghost use Rattle.touch_index.specs.Indexed.{block_at, pairs};
    ghost use Rattle.object_model.specs.Nodes.{node_rows};
    ghost use Rattle.brcb_state.specs.Components.{trg_of};
    ghost use Rattle.std.specs.List.{All};
    ghost use Rattle.block_watch.specs.Watched.{AreLent, IsFollowed, IsRoomier, IsWatching};
    ghost use Rattle.block_watch.specs.Watched.{IsWatchable, index_after, members_in};

    /// The data sets of all blocks by their attributes. It takes the memory that notes need.
    pub fn open(
        alloc: Global,
        attrs: u32,
        parts: &[ReportBlock],
        book: &SetBook,
        rows: &[NodeRow],
    ) -> Result<Watch, AllocError>
        requires few { length parts.now < 2 ^ 32 }
        requires lent { AreLent rows.now book.now }
        requires watchable { All (IsWatchable rows.now book.now attrs) parts.now }
        ensures { IfOk result (λ w. IsWatching rows.now book.now attrs parts.now w) }
    {
        Ok(Watch {
            index: index_of(alloc, attrs, parts, book, rows)?,
            options: options_of(alloc, parts)?,
            notes: Notes::new(alloc, parts.len() as u32, 256)?,
        })
    }

    /// Reserves memory for a data set of these members in the index of every block.
    pub fn reserve(&mut self, nodes: &[NodeId], rows: &[NodeRow]) -> Result<(), AllocError>
        requires there { AreThere (length rows.now) nodes.now }
        requires count { length self.old.options.items ≡ length self.old.index.blocks }
        ensures grown { IsRoomier self.old.index self.new.index }
        ensures kept { self.new ≡ record self.old { index = self.new.index } }
        ensures made { OnOk result ((b : ℕ) → b < length self.old.index.blocks
            → pairs (shapes_of rows.now nodes.now) ≤ (block_at self.new.index.blocks b).room) }
    {
        let pairs = pairs_of(&SetView::new(nodes, rows))?;
        let Ok(blocks) = u32::try_from(self.options.len()) else {
            return Err(AllocError);
        };
        reserve_all(&mut self.index, blocks, pairs)
    }

    /// A component of a block was written, which is this by now: if it was DatSet the index has the members of its data set, and
    /// its trigger options are these. It takes no memory.
    pub fn follow(
        &mut self,
        b: BlockNo,
        comp: Comp,
        part: &ReportBlock,
        book: &SetBook,
        model: &Model,
    )
        requires { IsFollowed (node_rows model.now) book.now self.old b.0 part.now }
        ensures index { self.new.index ≡ index_after comp b.0
            (members_in (node_rows model.now) book.now part.now) self.old.index }
        ensures options { self.new.options.items ≡ slice_set self.old.options.items b.0
            (trg_of part.now.block.options.trg_ops) }
        ensures notes { self.new.notes ≡ self.old.notes }
    {
        if matches!(comp, Comp::DatSet) {
            self.index.put(b, &set_of(book, model, part));
        }
        self.options[b.0 as usize] = part.trg();
    }
}
