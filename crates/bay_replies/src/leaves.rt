//! What attributes and components of report blocks and of setting group blocks read as (IEC 61850-7-2, GetDataValues, GetEditSGValue,
//! GetBRCBValues and GetSGCBValues).

ghost use Rattle.std.specs.Prelude.{◌≡◌, IfOk, option_copied};
ghost use Rattle.bay_replies.specs.Given.{component_read};

use crate::owned;
use crate::replies::Replies;
use bay_model::{Comp, access_errors};
use node_reads::LeafValues;
use object_model::Leaf;
use report_block::ReportBlock;
use std::alloc::{AllocError, Global};
use sv_base::{AccessResult, AttrId, BlockNo, Moment};

/// A component of a block, where the block is there.
fn component_of(
    alloc: Global,
    part: Option<&ReportBlock>,
    comp: Comp,
    was: Moment,
    now: Moment,
) -> Result<AccessResult, AllocError>
    ensures { IfOk result (λ r. r ≡ component_read was now comp (option_copied part.entry)) }
{
    match part {
        Some(part) => Ok(Ok(part.read(alloc, comp, was, now)?)),
        None => Ok(Err(access_errors::OBJECT_ACCESS_DENIED)),
    }
}

impl<'a> Replies<'a> {
    ghost use Rattle.std.specs.Prelude.{◌≡◌, IfOk, slice_get};
    ghost use Rattle.bay_replies.specs.Given.{attribute_read, component_read, copy_read};
    ghost use Rattle.setting_groups.specs.Grouped.{copy_in};

    /// The edit copy of the SG attribute at a place among these, where somebody holds the edit.
    fn copy_of(&self, alloc: Global, place: usize) -> Result<AccessResult, AllocError>
        ensures { IfOk result (λ r. r ≡ copy_read (copy_in self.entry.now.groups.now place)) }
    {
        match self.groups.copy_at(place) {
            Some(slot) => Ok(Ok(owned(alloc, slot.get())?)),
            None => Ok(Err(access_errors::TEMPORARILY_UNAVAILABLE)),
        }
    }

    /// An attribute. The edit copies of settings stand after all that have values.
    fn attribute(&self, alloc: Global, attr: AttrId) -> Result<AccessResult, AllocError>
        ensures { IfOk result (λ r. r
            ≡ attribute_read self.entry.now.store.now self.entry.now.groups.now attr.0) }
    {
        let number = attr.0 as usize;
        let copies = self.store.len().saturating_sub(self.groups.len());
        if number >= copies {
            return self.copy_of(alloc, number - copies);
        }
        if number < self.store.len() {
            Ok(Ok(owned(alloc, self.store.get(attr))?))
        } else {
            Ok(Err(access_errors::TEMPORARILY_UNAVAILABLE))
        }
    }

    /// A component of a report block.
    fn component(
        &self,
        alloc: Global,
        block: BlockNo,
        comp: Comp,
    ) -> Result<AccessResult, AllocError>
        ensures { IfOk result (λ r. r ≡ component_read self.entry.now.was self.entry.now.now comp
            (slice_get self.entry.now.blocks.now block.0)) }
    {
        component_of(
            alloc,
            self.blocks.get(block.0 as usize),
            comp,
            self.was,
            self.now,
        )
    }
}

impl<'a> LeafValues for Replies<'a> {
    ghost use Rattle.bay_replies.specs.Given.{given_by};

    ghost given = { given_by };

    fn value_of(&self, alloc: Global, leaf: Leaf) -> Result<AccessResult, AllocError> {
        match leaf {
            Leaf::Attribute(attr) => self.attribute(alloc, attr),
            Leaf::Component(block, comp) => self.component(alloc, block, comp),
            Leaf::Setting(domain, part) => Ok(Ok(self.groups.read(domain, part))),
            Leaf::Withheld => Ok(Err(access_errors::OBJECT_ACCESS_DENIED)),
        }
    }
}
