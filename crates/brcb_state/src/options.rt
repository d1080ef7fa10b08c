//! The attributes of a block that a client sets once for many reports.

ghost use Rattle.std.specs.Prelude.{◌≡◌, ◌≤◌, not, length, IfOk};
ghost use Rattle.sv_base.specs.Same.{is_same_bits};

use bay_rooms::{Fixed, are_same, replace};
use std::alloc::{AllocError, Global};
use std::marker::Model;
use sv_base::BlockDef;

/// The greatest length of RptID and of DatSet in octets.
pub const MOST: usize = 129;

/// Octets with capacity for the greatest length at least.
fn roomy(alloc: Global, octets: &[u8]) -> Result<Fixed, AllocError>
    ensures { IfOk result (λ f. (f.items ≡ octets.now) × (129 ≤ f.room)) }
{
    let Ok(room) = u32::try_from(octets.len().max(MOST)) else {
        return Err(AllocError);
    };
    let mut text = Fixed::new(alloc, room)?;
    text.push(octets);
    Ok(text)
}

/// Puts bits in the place of as many others; returns whether they were others.
fn replace_bits(old: &mut Vec<bool>, new: &[bool]) -> bool
    requires { length new.now ≡ length old.old.items }
    ensures differs { result ≡ not (is_same_bits new.now old.old.items) }
    ensures set { old.new.items ≡ new.now }
{
    let differs = !are_same(new, old.as_slice());
    old.copy_from_slice(new);
    differs
}

/// RptID, DatSet, OptFlds, BufTm, TrgOps and IntgPd (IEC 61850-7-2, BRCB attributes). Setting one takes no memory.
#[derive(Drop)]
pub struct Options {
    rpt_id: Fixed,
    dat_set: Fixed,
    opt_flds: Vec<bool>,
    buf_tm: u32,
    trg_ops: Vec<bool>,
    intg_pd: u32,
}

impl Model for Options {
    ghost use Rattle.std.specs.Prelude.{◌≡◌, ◌≤◌, length};
    ghost use Rattle.bay_model.specs.Model.{Parameters};

    ghost Value = { Parameters };

    ghost view = { λ o. record {
      rpt_id = o.rpt_id.items;
      dat_set = o.dat_set.items;
      opt_flds = o.opt_flds.items;
      buf_tm = o.buf_tm;
      trg_ops = o.trg_ops.items;
      intg_pd = o.intg_pd;
    } };

    ghost invariant = { λ o. (129 ≤ o.rpt_id.room) × (129 ≤ o.dat_set.room)
        × (length o.opt_flds.items ≡ 10) × (length o.trg_ops.items ≡ 6) };
}

impl Options {
    ghost use Rattle.std.specs.Prelude.{◌≡◌, ◌==◌, ◌≤◌, length, not, IfOk};
    ghost use Rattle.std.specs.Str.{bytes_eq};
    ghost use Rattle.sv_base.specs.Same.{is_same_bits};
    ghost use Rattle.bay_model.specs.Configured.{block_defined};

    /// As a block is configured.
    pub fn new(alloc: Global, def: &BlockDef) -> Result<Options, AllocError>
        requires opt_flds { length def.now.opt_flds ≡ 10 }
        requires trg_ops { length def.now.trg_ops ≡ 6 }
        ensures { IfOk result (λ o. o ≡ (block_defined def.now).initial) }
    {
        Ok(Options {
            rpt_id: roomy(alloc, def.rpt_id.as_slice())?,
            dat_set: roomy(alloc, def.dat_set.as_slice())?,
            opt_flds: Vec::from_slice(alloc, def.opt_flds.as_slice())?,
            buf_tm: def.buf_tm,
            trg_ops: Vec::from_slice(alloc, def.trg_ops.as_slice())?,
            intg_pd: def.intg_pd,
        })
    }

    /// RptID.
    pub fn rpt_id(&self) -> &[u8]
        ensures { result.now ≡ self.now.rpt_id }
    {
        self.rpt_id.as_slice()
    }

    /// DatSet.
    pub fn dat_set(&self) -> &[u8]
        ensures { result.now ≡ self.now.dat_set }
    {
        self.dat_set.as_slice()
    }

    /// OptFlds.
    pub fn opt_flds(&self) -> &[bool]
        ensures value { result.now ≡ self.now.opt_flds }
        ensures ten { length result.now ≡ 10 }
    {
        &self.opt_flds
    }

    /// BufTm in milliseconds.
    pub fn buf_tm(&self) -> u32
        ensures { result ≡ self.now.buf_tm }
    {
        self.buf_tm
    }

    /// TrgOps.
    pub fn trg_ops(&self) -> &[bool]
        ensures value { result.now ≡ self.now.trg_ops }
        ensures six { length result.now ≡ 6 }
    {
        &self.trg_ops
    }

    /// IntgPd in milliseconds.
    pub fn intg_pd(&self) -> u32
        ensures { result ≡ self.now.intg_pd }
    {
        self.intg_pd
    }

    /// Sets RptID; returns whether it was another.
    pub fn set_rpt_id(&mut self, new: &[u8]) -> bool
        requires { length new.now ≤ 129 }
        ensures differs { result ≡ not (bytes_eq new.now self.old.rpt_id) }
        ensures set { self.new ≡ record self.old { rpt_id = new.now } }
    {
        replace(&mut self.rpt_id, new)
    }

    /// Sets DatSet; returns whether it was another.
    pub fn set_dat_set(&mut self, new: &[u8]) -> bool
        requires { length new.now ≤ 129 }
        ensures differs { result ≡ not (bytes_eq new.now self.old.dat_set) }
        ensures set { self.new ≡ record self.old { dat_set = new.now } }
    {
        replace(&mut self.dat_set, new)
    }

    /// Sets OptFlds.
    pub fn set_opt_flds(&mut self, new: &[bool])
        requires { length new.now ≡ 10 }
        ensures { self.new ≡ record self.old { opt_flds = new.now } }
    {
        self.opt_flds.copy_from_slice(new);
    }

    /// Sets BufTm; returns whether it was another.
    pub fn set_buf_tm(&mut self, new: u32) -> bool
        ensures differs { result ≡ not (new == self.old.buf_tm) }
        ensures set { self.new ≡ record self.old { buf_tm = new } }
    {
        let differs = new != self.buf_tm;
        self.buf_tm = new;
        differs
    }

    /// Sets TrgOps; returns whether they were others.
    pub fn set_trg_ops(&mut self, new: &[bool]) -> bool
        requires { length new.now ≡ 6 }
        ensures differs { result ≡ not (is_same_bits new.now self.old.trg_ops) }
        ensures set { self.new ≡ record self.old { trg_ops = new.now } }
    {
        replace_bits(&mut self.trg_ops, new)
    }

    /// Sets IntgPd; returns whether it was another.
    pub fn set_intg_pd(&mut self, new: u32) -> bool
        ensures differs { result ≡ not (new == self.old.intg_pd) }
        ensures set { self.new ≡ record self.old { intg_pd = new } }
    {
        let differs = new != self.intg_pd;
        self.intg_pd = new;
        differs
    }
}
