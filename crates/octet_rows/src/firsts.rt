//! Numbers, each with a place, found by chains.

ghost use Rattle.std.specs.Prelude.{◌≡◌, ◌<◌, ℕ, length, nat_eq, Some, None, IfOk, OnOk, OnErr};
ghost use Rattle.std.specs.Prelude.{if◌then◌else◌};
ghost use Rattle.std.specs.Prelude.{◌≤◌, ◌^◌, ◌&&◌, [], is_none};
ghost use Rattle.octet_rows.specs.Chains.{slot, head, walk, latest, AreBack, AreChained};

use std::alloc::{AllocError, Global};

/// A number and its place, and how many entries there were when the one before it in its chain was the last; 0 where it is the first.
#[derive(Clone, Copy)]
struct Entry {
    number: u64,
    place: u32,
    before: u32,
}

/// Numbers, each with a place. The chain of a number begins at one of the heads.
#[derive(Drop)]
pub struct Firsts {
    alloc: Global,
    heads: Vec<u32>,
    entries: Vec<Entry>,
}

/// Where the chain of a number has its head among n heads.
fn slot_of(number: u64, heads: usize) -> usize
    requires { 0 < heads }
    ensures value { result ≡ slot heads number }
    ensures within { result < heads }
{
    ((u128::from(number) * heads as u128) >> 64) as usize
}

fn head_of(heads: &[u32], number: u64) -> u32
    ensures { result ≡ head heads.now number }
{
    if heads.is_empty() {
        return 0;
    }
    heads[slot_of(number, heads.len())]
}

/// The place that the chain from here gives a number.
fn found_from(entries: &[Entry], start: u32, number: u64) -> Option<u32>
    requires back { AreBack entries.now }
    requires within { start ≤ length entries.now }
    ensures { result ≡ walk start entries.now start number }
{
    let mut at = start;
    while at > 0 {
        let entry = entries[at as usize - 1];
        if entry.number == number {
            return Some(entry.place);
        }
        at = entry.before;
    }
    None
}

/// Puts each entry into the chain that begins at its head, where none has begun.
fn relink(entries: &mut [Entry], heads: &mut [u32])
    requires few { length entries.old < 2 ^ 32 }
    requires some { 0 < length heads.old }
    requires none { AreChained heads.old [] }
    ensures chained { AreChained heads.new entries.new }
    ensures some { length heads.new ≡ length heads.old }
    ensures same { (q : ℕ) → latest entries.new q ≡ latest entries.old q }
{
    for i in 0..entries.len() {
        let slot = slot_of(entries[i].number, heads.len());
        entries[i].before = heads[slot];
        heads[slot] = i as u32 + 1;
    }
}

impl Firsts {
    /// There is none.
    pub fn new(alloc: Global) -> Self
        ensures chained { AreChained result.heads.items result.entries.items }
        ensures none { (q : ℕ) → latest result.entries.items q ≡ None }
    {
        Firsts {
            alloc,
            heads: Vec::new(alloc),
            entries: Vec::new(alloc),
        }
    }

    /// There is none, and memory for that many.
    pub fn with_capacity(alloc: Global, numbers: usize) -> Result<Self, AllocError>
        ensures chained { IfOk result (λ f. AreChained f.heads.items f.entries.items) }
        ensures none { IfOk result (λ f. (q : ℕ) → latest f.entries.items q ≡ None) }
    {
        Ok(Firsts {
            alloc,
            heads: vec![in alloc; 0; numbers.saturating_mul(2).saturating_add(1)]?,
            entries: Vec::with_capacity(alloc, numbers)?,
        })
    }

    /// How many entries there were with that with which the chain of a number begins, and 0 where it hasn't begun.
    pub fn begun(&self, number: u64) -> u32
        ensures { result ≡ head self.now.heads.items number }
    {
        head_of(&self.heads, number)
    }

    /// The place of a number, if it has one.
    pub fn get(&self, number: u64) -> Option<u32>
        requires { AreChained self.now.heads.items self.now.entries.items }
        ensures { result ≡ latest self.now.entries.items number }
    {
        found_from(&self.entries, head_of(&self.heads, number), number)
    }

    /// There are more heads than entries: else four times as many and more are made. Where it fails, nothing changes.
    fn make_room(&mut self) -> Result<(), AllocError>
        requires few { length self.old.entries.items < 2 ^ 32 }
        requires chained { AreChained self.old.heads.items self.old.entries.items }
        ensures chained { AreChained self.new.heads.items self.new.entries.items }
        ensures some { OnOk result (0 < length self.new.heads.items) }
        ensures same { (q : ℕ) → latest self.new.entries.items q ≡ latest self.old.entries.items q }
        ensures len { length self.new.entries.items ≡ length self.old.entries.items }
    {
        let len = self.entries.len();
        if len < self.heads.len() {
            return Ok(());
        }
        let many = len.saturating_mul(4).saturating_add(16);
        let mut heads = vec![in self.alloc; 0; many]?;
        relink(&mut self.entries, &mut heads);
        self.heads = heads;
        Ok(())
    }

    /// Gives back the memory beyond what the numbers take.
    pub fn shrink_to_fit(&mut self)
        ensures heads { self.new.heads.items ≡ self.old.heads.items }
        ensures entries { self.new.entries.items ≡ self.old.entries.items }
    {
        self.heads.shrink_to_fit();
        self.entries.shrink_to_fit();
    }

    /// Gives a number its place, unless it has one, which is told. Where it fails, nothing changes.
    pub fn insert(&mut self, number: u64, place: u32) -> Result<Option<u32>, AllocError>
        requires { AreChained self.old.heads.items self.old.entries.items }
        ensures chained { AreChained self.new.heads.items self.new.entries.items }
        ensures told { IfOk result (λ there. there ≡ latest self.old.entries.items number) }
        ensures ok { IfOk result (λ there. (q : ℕ) → latest self.new.entries.items q ≡
            (if is_none there && nat_eq number q then Some place
            else latest self.old.entries.items q)) }
        ensures err { OnErr result ((q : ℕ)
            → latest self.new.entries.items q ≡ latest self.old.entries.items q) }
    {
        let len = self.entries.len();
        if len > 0xffff_fffe {
            return Err(AllocError);
        }
        self.make_room()?;
        let slot = slot_of(number, self.heads.len());
        let before = self.heads[slot];
        if let Some(other) = found_from(&self.entries, before, number) {
            return Ok(Some(other));
        }
        self.entries.push(Entry {
            number,
            place,
            before,
        })?;
        self.heads[slot] = len as u32 + 1;
        Ok(None)
    }
}
