//! The book of data sets: found by name and by reference, defined, deleted, held by report blocks and released.

ghost use Rattle.std.specs.Prelude.{◌≡◌, IfOk, length, map};
ghost use Rattle.std.specs.List.{list_all};
ghost use Rattle.std.specs.Str.{bytes_eq};
ghost use Rattle.data_sets.specs.Books.{is_name as is_named, seen, booked, largest_in};
ghost use Rattle.data_sets.specs.Books.{is_member as is_member_of, node_in, items_in, IsThere};
ghost use Rattle.data_sets.specs.Books.{AreTargets};
ghost use Rattle.bay_model.specs.Lookups.{reference_of};

use bay_model::{Names, NodeRow, NodeTable, SetName, SetRow, SetTable, Target};
use name_order::{names_after, sorted};
use set_view::SetView;
use std::alloc::{AllocError, Global};
use std::marker::Model;
use sv_base::{NodeId, Octs};

/// The most members of a set that a client defines.
const MEMBERS: usize = 256;

/// The most sets that clients may have defined at a time.
const SETS: usize = 64;

/// The most octets of a member's Data.
const OCTETS: u32 = 500;

/// Why a set isn't defined, in the order of the tests.
#[derive(Clone, Copy, Debug, PartialEq, Eq)]
pub enum DefineFault {
    /// A set of the name is there.
    Exists,
    /// The name is none that a set may have, there is no member, or one isn't there or may not be one.
    NoSuchMember,
    /// There are more than 256 members, or 64 sets that clients defined.
    Full,
}

/// Why a set isn't deleted, in the order of the tests.
#[derive(Clone, Copy, Debug, PartialEq, Eq)]
pub enum DeleteFault {
    /// No set of the name is there.
    NoSuchSet,
    /// It is a configured one.
    NotDeletable,
    /// A report block names it.
    InUse,
}

/// A data set: its name, the nodes that are its members, and how many report blocks name it.
#[derive(Drop)]
struct Entry {
    name: SetName,
    nodes: Vec<NodeId>,
    holds: u32,
}

/// A set that a client defines, made ready for the book. Contracts see it as the book will have it.
#[derive(Drop)]
pub struct Definition {
    entry: Entry,
}

impl Model for Definition {
    ghost use Rattle.data_sets.specs.Books.{Booked, seen};

    ghost Value = { Booked };

    ghost view = { λ d. seen d.entry };
}

/// The data sets that are there: the configured ones, and those that clients defined, in the order of their definition. A
/// set's number is its place. Contracts see the list of them.
#[derive(Drop)]
pub struct SetBook {
    configured: usize,
    entries: Vec<Entry>,
}

impl Model for SetBook {
    ghost use Rattle.std.specs.Prelude.{◌≤◌, ◌+◌, length, map, vec_capacity};
    ghost use Rattle.data_sets.specs.Books.{Book, seen};

    ghost Value = { Book };

    ghost view = { λ b. record { configured = b.configured; sets = map seen b.entries.items } };

    ghost invariant = { λ b. (b.configured ≤ length b.entries.items)
        × (b.configured + 64 ≤ vec_capacity b.entries) };
}

/// Whether the two names are the same.
fn is_name(one: &SetName, other: &SetName) -> bool
    ensures { result ≡ is_named one.now other.now }
{
    one.domain.as_slice() == other.domain.as_slice() && one.item.as_slice() == other.item.as_slice()
}

/// Whether a text is the reference `LD/LN$NAME` of an item of a domain.
pub fn is_reference(text: &[u8], domain: &[u8], item: &[u8]) -> bool
    ensures { result ≡ bytes_eq text.now (reference_of domain.now item.now) }
{
    match text {
        [] => false,
        [first, text @ ..] => match domain {
            [] => *first == 47 && text == item,
            [other, domain @ ..] => *first == *other && is_reference(text, domain, item),
        },
    }
}

/// The node may be a member of a set.
fn is_member(rows: &[NodeRow], target: &Target) -> bool
    requires { IsThere (length rows.now) target.now }
    ensures { result ≡ is_member_of rows.now target.now }
{
    match target {
        Target::Node(node, _) => {
            let row = &rows[node.0 as usize];
            row.allowed && row.octets <= OCTETS
        }
        _ => false,
    }
}

/// All of them may.
fn are_members(rows: &[NodeRow], members: &[Target]) -> bool
    requires { AreTargets (length rows.now) members.now }
    ensures { result ≡ list_all (is_member_of rows.now) members.now }
{
    for member in members {
        if !is_member(rows, member) {
            return false;
        }
    }
    true
}

/// The node of a member.
fn node_of(member: &Target) -> NodeId
    ensures { result ≡ node_in member.now }
{
    match member {
        Target::Node(node, _) => *node,
        _ => NodeId(0),
    }
}

/// The nodes of members.
fn nodes_of(alloc: Global, members: &[Target]) -> Result<Vec<NodeId>, AllocError>
    ensures { IfOk result (λ v. v.items ≡ map node_in members.now) }
{
    let mut nodes = Vec::with_capacity(alloc, members.len())?;
    for member in members {
        nodes.push(node_of(member))?;
    }
    Ok(nodes)
}

/// A name again.
fn copy_of(alloc: Global, name: &SetName) -> Result<SetName, AllocError>
    ensures { IfOk result (λ n. n ≡ name.now) }
{
    Ok(SetName {
        domain: name.domain.copy(alloc)?,
        item: name.item.copy(alloc)?,
    })
}

/// The data set of a row of the table.
fn entry_of(alloc: Global, row: &SetRow) -> Result<Entry, AllocError>
    ensures { IfOk result (λ e. seen e ≡ booked row.now) }
{
    Ok(Entry {
        name: copy_of(alloc, &row.name)?,
        nodes: Vec::from_slice(alloc, row.nodes.as_slice())?,
        holds: 0,
    })
}

/// The items of a domain's sets.
fn items_of(alloc: Global, domain: &[u8], entries: &[Entry]) -> Result<Vec<Octs>, AllocError>
    ensures { IfOk result (λ v. v.items ≡ items_in domain.now (map seen entries.now)) }
{
    let mut items = Vec::new(alloc);
    for entry in entries {
        if entry.name.domain.as_slice() == domain {
            items.push(entry.name.item.copy(alloc)?)?;
        }
    }
    Ok(items)
}

/// How many members the largest of these sets has.
fn largest_of(entries: &[Entry]) -> usize
    ensures { result ≡ largest_in (map seen entries.now) }
{
    let mut most: usize = 0;
    for entry in entries {
        most = most.max(entry.nodes.len());
    }
    most
}

impl Definition {
    ghost use Rattle.std.specs.Prelude.{◌≡◌, IfOk};
    ghost use Rattle.data_sets.specs.Books.{defined_set};

    /// The set of this name and of these members' nodes, which no report block names.
    pub fn new(alloc: Global, name: &SetName, members: &[Target]) -> Result<Definition, AllocError>
        ensures { IfOk result (λ d. d ≡ defined_set name.now members.now) }
    {
        let entry = Entry {
            name: copy_of(alloc, name)?,
            nodes: nodes_of(alloc, members)?,
            holds: 0,
        };
        Ok(Definition { entry })
    }

    /// Its members.
    pub fn nodes(&self) -> &[NodeId]
        ensures { result.now ≡ self.now.nodes }
    {
        &self.entry.nodes
    }
}

impl SetBook {
    ghost use Rattle.std.specs.Prelude.{◌≡◌, ◌==◌, ◌<◌, ◌≤◌, ◌-◌, IfOk, length};
    ghost use Rattle.name_order.specs.Sorting.{names_above};
    ghost use Rattle.set_view.specs.Shapes.{AreThere, shapes_of};
    ghost use Rattle.data_sets.specs.Books.{AreTargets, IsSet, nodes_in, largest, opened};
    ghost use Rattle.data_sets.specs.Books.{number_named, number_referred, set_at};
    ghost use Rattle.data_sets.specs.Books.{define_fault as define_fault_of};
    ghost use Rattle.data_sets.specs.Books.{deletion as deletion_in, with_set, after_delete};
    ghost use Rattle.data_sets.specs.Books.{after_hold};
    ghost use Rattle.data_sets.specs.Books.{after_release, items_in};

    /// The configured data sets, which no report block names, and memory for 64 that clients define.
    pub fn open(alloc: Global, sets: &SetTable) -> Result<SetBook, AllocError>
        ensures { IfOk result (λ b. b ≡ opened sets.now) }
    {
        let mut entries = Vec::new(alloc);
        for row in sets.as_slice() {
            entries.push(entry_of(alloc, row)?)?;
        }
        let configured = entries.len();
        entries.reserve(SETS)?;
        Ok(SetBook {
            configured,
            entries,
        })
    }

    /// How many sets there are.
    pub fn len(&self) -> usize
        ensures { result ≡ length self.now.sets }
    {
        self.entries.len()
    }

    /// There is no set.
    pub fn is_empty(&self) -> bool
        ensures { result ≡ (length self.now.sets == 0) }
    {
        self.entries.is_empty()
    }

    /// How many members the largest set has.
    pub fn largest(&self) -> usize
        ensures { result ≡ largest self.now }
    {
        largest_of(&self.entries)
    }

    /// The number of the set of this name; none exactly where no such set is there.
    pub fn number_named(&self, name: &SetName) -> Option<usize>
        ensures { result ≡ number_named name.now self.now }
    {
        for at in 0..self.entries.len() {
            if is_name(name, &self.entries[at].name) {
                return Some(at);
            }
        }
        None
    }

    /// The number of the set that a DatSet names by its reference; none exactly where no such set is there.
    pub fn number_referred(&self, reference: &[u8]) -> Option<usize>
        ensures { result ≡ number_referred reference.now self.now }
    {
        for at in 0..self.entries.len() {
            let name = &self.entries[at].name;
            if is_reference(reference, name.domain.as_slice(), name.item.as_slice()) {
                return Some(at);
            }
        }
        None
    }

    /// The members of a set.
    pub fn nodes(&self, number: usize) -> &[NodeId]
        requires { number < length self.now.sets }
        ensures { result.now ≡ (set_at self.now number).nodes }
    {
        &self.entries[number].nodes
    }

    /// The members of the set of a number, whose nodes have these rows; none where there is no number.
    pub fn view<'a>(&'a self, set: Option<usize>, rows: &'a [NodeRow]) -> SetView<'a>
        requires set { IsSet self.now set }
        requires there { AreThere (length rows.now) (nodes_in self.now set) }
        ensures { result ≡ shapes_of rows.now (nodes_in self.now set) }
    {
        match set {
            Some(number) => SetView::new(self.nodes(number), rows),
            None => SetView::new(&[], rows),
        }
    }

    /// Why a client may not define a set of this name and these members, the first cause; none where it may. `is_named` says
    /// whether the name is `LN$NAME` of a logical node that is there.
    pub fn define_fault(
        &self,
        name: &SetName,
        is_named: bool,
        members: &[Target],
        nodes: &NodeTable,
    ) -> Option<DefineFault>
        requires { AreTargets (length nodes.now) members.now }
        ensures { result ≡ define_fault_of self.now name.now is_named nodes.now members.now }
    {
        if self.number_named(name).is_some() {
            return Some(DefineFault::Exists);
        }
        if !is_named || members.is_empty() || !are_members(nodes.as_slice(), members) {
            return Some(DefineFault::NoSuchMember);
        }
        if MEMBERS < members.len() || SETS <= self.entries.len() - self.configured {
            return Some(DefineFault::Full);
        }
        None
    }

    /// Defines a set, which takes the next number. It takes no memory: its memory was made when the book was opened.
    pub fn define(&mut self, definition: Definition)
        requires { length self.old.sets - self.old.configured < 64 }
        ensures { self.new ≡ with_set definition self.old }
    {
        let _ = self.entries.push(definition.entry);
    }

    /// The number of the set of this name, where it may be deleted, or the first cause why it may not.
    pub fn deletion(&self, name: &SetName) -> Result<usize, DeleteFault>
        ensures { result ≡ deletion_in self.now name.now }
    {
        let Some(number) = self.number_named(name) else {
            return Err(DeleteFault::NoSuchSet);
        };
        if number < self.configured {
            return Err(DeleteFault::NotDeletable);
        }
        if 0 < self.entries[number].holds {
            return Err(DeleteFault::InUse);
        }
        Ok(number)
    }

    /// Deletes a set that may be deleted: the numbers above its own move down by one. It takes no memory.
    pub fn delete(&mut self, number: usize)
        requires from { self.old.configured ≤ number }
        requires to { number < length self.old.sets }
        ensures { self.new ≡ after_delete number self.old }
    {
        let _ = self.entries.remove(number);
    }

    /// One report block more names the set. It takes no memory.
    pub fn hold(&mut self, number: usize)
        requires there { number < length self.old.sets }
        requires few { (set_at self.old number).holds < 4294967295 }
        ensures { self.new ≡ after_hold number self.old }
    {
        self.entries[number].holds += 1;
    }

    /// One report block that named the set names it no longer. It takes no memory.
    pub fn release(&mut self, number: usize)
        requires there { number < length self.old.sets }
        requires held { 0 < (set_at self.old number).holds }
        ensures { self.new ≡ after_release number self.old }
    {
        self.entries[number].holds -= 1;
    }

    /// The items of a domain's sets that are greater than a name, ascending by their octets.
    pub fn names_after(
        &self,
        alloc: Global,
        domain: &[u8],
        after: &[u8],
    ) -> Result<Names, AllocError>
        ensures { IfOk result (λ v. v ≡ names_above (items_in domain.now self.now.sets) after.now) }
    {
        let items = items_of(alloc, domain, &self.entries)?;
        let ascending = sorted(alloc, &items)?;
        Ok(Names::from_vec(names_after(alloc, &ascending, after)?))
    }
}
