//! The state of a block, and what a report is told of it.

ghost use Rattle.std.specs.Prelude.{◌≡◌, IfOk};
ghost use Rattle.bay_model.specs.Configured.{block_defined};
ghost use Rattle.bay_model.specs.Parameters.{bit as bit_of};

use crate::options::Options;
use crate::reservation::Reserved;
use crate::told::{Next, Retained};
use bay_model::Trg;
use std::alloc::{AllocError, Global};
use sv_base::{AssocNo, BlockDef, Moment, Octs, Owner};

/// An association that has enabled a block, with its address.
#[derive(Clone, Copy)]
pub struct Holder {
    pub by: AssocNo,
    pub owner: Owner,
}

/// A buffered report control block, without its entries.
#[derive(Drop)]
pub struct Block {
    pub(crate) reference: Octs,
    pub(crate) options: Options,
    /// ConfRev.
    pub(crate) revision: u32,
    /// The association that has enabled it.
    pub(crate) enabler: Option<Holder>,
    /// The reservation by the last accepted ResvTms, which may have run out since.
    pub(crate) reservation: Option<Reserved>,
    /// The number of the entry that was reported last, or that a client set.
    pub(crate) cursor: u64,
    /// How many reports there were since it was enabled, modulo 65536.
    pub(crate) count: u16,
}

/// A bit of TrgOps or OptFlds, the first being bit 0.
pub fn bit(i: usize, bits: &[bool]) -> bool
    ensures { result ≡ bit_of i bits.now }
{
    matches!(bits.get(i), Some(true))
}

/// `LD/LN$BR$NAME`.
fn reference_of(alloc: Global, def: &BlockDef) -> Result<Octs, AllocError>
    ensures { IfOk result (λ r. r ≡ (block_defined def.now).reference) }
{
    let mut reference = Vec::new(alloc);
    reference.extend_from_slice(def.domain.as_slice())?;
    reference.extend_from_slice(b"/")?;
    reference.extend_from_slice(def.ln.as_slice())?;
    reference.extend_from_slice(b"$BR$")?;
    reference.extend_from_slice(def.name.as_slice())?;
    Ok(Octs::from_vec(reference))
}

impl Block {
    ghost use Rattle.std.specs.Prelude.{◌≡◌, ◌≤◌, length, IfOk};
    ghost use Rattle.bay_model.specs.Reports.{report_id};
    ghost use Rattle.bay_model.specs.Configured.{block_defined};
    ghost use Rattle.brcb_state.specs.Changes.{configured, is_by, is_by_another, next_to};
    ghost use Rattle.brcb_state.specs.Changes.{after_report, after_loss};
    ghost use Rattle.brcb_state.specs.Components.{trg_of};

    /// A block as it is configured, enabled by nobody. It takes all the memory that its writes need.
    pub fn open(alloc: Global, def: &BlockDef) -> Result<Block, AllocError>
        requires opt_flds { length def.now.opt_flds ≡ 10 }
        requires trg_ops { length def.now.trg_ops ≡ 6 }
        ensures { IfOk result (λ s. s ≡ configured (block_defined def.now)) }
    {
        Ok(Block {
            reference: reference_of(alloc, def)?,
            options: Options::new(alloc, def)?,
            revision: def.conf_rev,
            enabler: None,
            reservation: None,
            cursor: 0,
            count: 0,
        })
    }

    /// An association has enabled it.
    pub(crate) fn is_enabled_by(&self, a: AssocNo) -> bool
        ensures { result ≡ is_by a self.now.enabler }
    {
        match &self.enabler {
            Some(enabler) => enabler.by.0 == a.0,
            None => false,
        }
    }

    /// Another association than this one has enabled it.
    pub(crate) fn is_enabled_by_another(&self, a: AssocNo) -> bool
        ensures { result ≡ is_by_another a self.now.enabler }
    {
        match &self.enabler {
            Some(enabler) => enabler.by.0 != a.0,
            None => false,
        }
    }

    /// The report that an association gets next; none where it hasn't enabled the block, or where all entries are
    /// reported.
    pub fn next(&self, a: AssocNo, kept: Retained) -> Option<Next>
        ensures { result ≡ next_to a kept self.now }
    {
        let last = self.cursor.max(kept.front);
        if !self.is_enabled_by(a) || kept.len <= last {
            return None;
        }
        Some(Next {
            id: last + 1,
            ovfl: self.cursor < kept.front,
            sq: self.count,
        })
    }

    /// The entry of this number was reported.
    pub fn sent(&mut self, id: u64)
        ensures { self.new ≡ after_report id self.old }
    {
        self.cursor = id;
        self.count = self.count.wrapping_add(1);
    }

    /// The association was lost: what it has enabled it enables no longer, and a reservation that it alone held is loose.
    pub fn lost(&mut self, a: AssocNo, now: Moment)
        requires { (1 ≤ a.0) × (a.0 ≤ 64) }
        ensures { self.new ≡ after_loss a now self.old }
    {
        if self.is_enabled_by(a) {
            self.enabler = None;
        }
        if let Some(reserved) = &mut self.reservation {
            reserved.lost(a, now);
        }
    }

    /// Bits 1 to 5 of TrgOps.
    pub fn trg(&self) -> Trg
        ensures { result ≡ trg_of self.now.options.trg_ops }
    {
        let bits = self.options.trg_ops();
        Trg {
            dchg: bit(1, bits),
            qchg: bit(2, bits),
            dupd: bit(3, bits),
            intg: bit(4, bits),
            gi: bit(5, bits),
        }
    }

    /// BufTm in milliseconds.
    pub fn buf_tm(&self) -> u32
        ensures { result ≡ self.now.options.buf_tm }
    {
        self.options.buf_tm()
    }

    /// IntgPd in milliseconds; 0 for none.
    pub fn period(&self) -> u32
        ensures { result ≡ self.now.options.intg_pd }
    {
        self.options.intg_pd()
    }

    /// DatSet, the reference of its data set; empty for none.
    pub fn dat_set(&self) -> &[u8]
        ensures { result.now ≡ self.now.options.dat_set }
    {
        self.options.dat_set()
    }

    /// The RptID of its reports: RptID, or where that is empty the block's reference.
    pub fn report_id(&self) -> &[u8]
        ensures { result.now ≡ report_id self.now.options.rpt_id self.now.reference }
    {
        match self.options.rpt_id() {
            [] => self.reference.as_slice(),
            id => id,
        }
    }

    /// OptFlds, ten bits.
    pub fn opt_flds(&self) -> &[bool]
        ensures value { result.now ≡ self.now.options.opt_flds }
        ensures ten { length result.now ≡ 10 }
    {
        self.options.opt_flds()
    }

    /// ConfRev.
    pub fn conf_rev(&self) -> u32
        ensures { result ≡ self.now.revision }
    {
        self.revision
    }
}
