//! The attributes, the nodes and the data sets of a configuration, as the parts of a bay are given them.

use crate::{Flags, Nodes, SetName};
use std::alloc::{AllocError, Global};
use std::marker::Model;
use std::sync::Arc;
use sv_base::{AttrId, List, NodeId, TypeOf};

/// The type of an attribute and its trigger conditions (IEC 61850-7-2, DataAttribute).
#[derive(Drop)]
pub struct AttrRow {
    pub kind: TypeOf,
    pub flags: Flags,
}

/// The attributes of a node, in the order of its type: a part of a row, which others may share.
#[derive(Drop)]
pub struct AttrIds {
    row: Arc<Vec<AttrId>>,
    first: u32,
    end: u32,
}

impl Model for AttrIds {
    ghost use Rattle.std.specs.Prelude.{List, ◌-◌, ◌≤◌, length, take, drop};
    ghost use Rattle.sv_base.specs.declared.numbers.AttrId.{AttrId};

    ghost Value = { List AttrId };

    ghost view = { λ l. take (l.end - l.first) (drop l.first l.row.value.items) };

    ghost invariant = { λ l. (l.first ≤ l.end) × (l.end ≤ length l.row.value.items) };
}

impl AttrIds {
    ghost use Rattle.std.specs.Prelude.{◌≡◌, ◌==◌, take, drop, length, slice_get, option_copied};
    ghost use Rattle.std.specs.Prelude.{IfOk};

    /// The row of these attributes.
    pub fn from_vec(alloc: Global, items: Vec<AttrId>) -> Result<Self, AllocError>
        ensures { IfOk result (λ l. l ≡ items.items) }
    {
        if items.len() > 0xffff_ffff {
            return Err(AllocError);
        }
        let end = items.len() as u32;
        Ok(AttrIds {
            row: Arc::new(alloc, items)?,
            first: 0,
            end,
        })
    }

    /// At most that many of these attributes, from a place on, counted from 0. It takes no memory.
    pub fn part(&self, first: u32, count: u32) -> Result<Self, AllocError>
        ensures { IfOk result (λ l. l ≡ take count (drop first self.now)) }
    {
        let first = self.first + first.min(self.end - self.first);
        Ok(AttrIds {
            row: Arc::try_clone(&self.row)?,
            first,
            end: first + count.min(self.end - first),
        })
    }

    /// The same attributes. It takes no memory.
    pub fn share(&self) -> Result<Self, AllocError>
        ensures { IfOk result (λ l. l ≡ self.now) }
    {
        Ok(AttrIds {
            row: Arc::try_clone(&self.row)?,
            first: self.first,
            end: self.end,
        })
    }

    /// How many attributes there are.
    pub fn len(&self) -> usize
        ensures { result ≡ length self.now }
    {
        self.as_slice().len()
    }

    /// There is no attribute.
    pub fn is_empty(&self) -> bool
        ensures { result ≡ (length self.now == 0) }
    {
        self.as_slice().is_empty()
    }

    /// The attribute at a place, counted from 0; none exactly where the row is no longer than that.
    pub fn get(&self, i: usize) -> Option<&AttrId>
        ensures { option_copied result ≡ slice_get self.now i }
    {
        self.as_slice().get(i)
    }

    /// The attributes, borrowed.
    pub fn as_slice(&self) -> &[AttrId]
        ensures { result.now ≡ self.now }
    {
        &self.row.as_slice()[self.first as usize..self.end as usize]
    }
}

/// What a member of a data set is: its node, the type of its Data, and the attributes that it is made of.
#[derive(Drop)]
pub struct MemberShape {
    pub node: NodeId,
    pub kind: TypeOf,
    pub attrs: AttrIds,
}

impl MemberShape {
    ghost use Rattle.std.specs.Prelude.{◌≡◌, IfOk};

    /// The same shape again.
    pub fn copy(&self, alloc: Global) -> Result<MemberShape, AllocError>
        ensures { IfOk result (λ m. m ≡ self.now) }
    {
        Ok(MemberShape {
            node: self.node,
            kind: self.kind.share()?,
            attrs: self.attrs.share()?,
        })
    }
}

/// A node of the tree of names.
#[derive(Drop)]
pub struct NodeRow {
    /// Whether it may be a member of a data set, however large its Data is (IEC 61850-7-2, DATA-SET).
    pub allowed: bool,
    /// The octets of its largest Data, 4294967295 where there are more.
    pub octets: u32,
    pub shape: MemberShape,
}

/// The nodes by their numbers.
pub type NodeTable = List<NodeRow>;

/// A data set: its name and the nodes that are its members.
#[derive(Drop)]
pub struct SetRow {
    pub name: SetName,
    pub nodes: Nodes,
}

/// The configured data sets, in the order of the configuration.
pub type SetTable = List<SetRow>;
