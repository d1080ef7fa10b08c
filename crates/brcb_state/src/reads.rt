//! Reads of a block's components (IEC 61850-7-2, GetBRCBValues).

ghost use Rattle.std.specs.Prelude.{◌≡◌, IfOk};
ghost use Rattle.std.specs.Option.{option_map_or};
ghost use Rattle.std.specs.Int.{to_be_bytes, w64};
ghost use Rattle.sv_base.specs.declared.value.Value.TheVariants as kinds;
ghost use Rattle.bay_model.specs.Components.{stamp_of as stamp_at, no_stamp};

use crate::block::{Block, Holder};
use crate::told::Retained;
use bay_model::Comp;
use std::alloc::{AllocError, Global};
use sv_base::{Bits, Moment, Octs, Stamp, Value};

/// The milliseconds of a day.
const DAY: u64 = 86400000;
/// The days from the beginning of 1970 to that of 1984.
const DAYS_TO_1984: u64 = 5113;

fn text(alloc: Global, octets: &[u8]) -> Result<Value, AllocError>
    ensures { IfOk result (λ v. v ≡ kinds.Text octets.now) }
{
    Ok(Value::Text(Octs::from_vec(Vec::from_slice(alloc, octets)?)))
}

fn bits(alloc: Global, bits: &[bool]) -> Result<Value, AllocError>
    ensures { IfOk result (λ v. v ≡ kinds.Bits bits.now) }
{
    Ok(Value::Bits(Bits::from_vec(Vec::from_slice(alloc, bits)?)))
}

fn octets(alloc: Global, octets: &[u8]) -> Result<Value, AllocError>
    ensures { IfOk result (λ v. v ≡ kinds.Octets octets.now) }
{
    Ok(Value::Octets(Octs::from_vec(Vec::from_slice(alloc, octets)?)))
}

fn entry_id(alloc: Global, n: u64) -> Result<Value, AllocError>
    ensures { IfOk result (λ v. v ≡ kinds.Octets (to_be_bytes w64 n)) }
{
    let octets = n.to_be_bytes();
    Ok(Value::Octets(Octs::from_vec(Vec::from_slice(alloc, &octets)?)))
}

/// A moment as EntryTime has it.
fn stamp_of(moment: Moment) -> Stamp
    ensures { result ≡ stamp_at moment }
{
    let ms = moment.ms();
    Stamp {
        ms: (ms % DAY) as u32,
        days: (ms / DAY - DAYS_TO_1984) as u16,
    }
}

/// The time of the newest entry, six zero octets where there is none.
fn time_of_entry(newest: Option<Moment>) -> Stamp
    ensures { result ≡ option_map_or stamp_at newest no_stamp }
{
    match newest {
        Some(moment) => stamp_of(moment),
        None => Stamp { ms: 0, days: 0 },
    }
}

impl Block {
    ghost use Rattle.std.specs.Prelude.{◌≡◌, IfOk};
    ghost use Rattle.brcb_state.specs.Components.{read_of};
    ghost use Rattle.std.specs.Option.{option_map};
    ghost use Rattle.sv_base.specs.declared.value.Value.TheVariants as kinds;
    ghost use Rattle.bay_model.specs.Components.{seconds_of, owner_of};
    ghost use Rattle.bay_model.specs.Reservations.{lasting};
    ghost use Rattle.brcb_state.specs.declared.block.Holder.{Holder};

    /// The seconds of a reservation that lasts, else 0.
    fn seconds(&self, now: Moment) -> u16
        ensures { result ≡ seconds_of (lasting now self.now.reservation) }
    {
        match &self.reservation {
            Some(reserved) if !reserved.is_run_out(now) => reserved.seconds(),
            _ => 0,
        }
    }

    /// The address that it is reserved for, else the enabler's, else no octets.
    fn read_owner(&self, alloc: Global, now: Moment) -> Result<Value, AllocError>
        ensures { IfOk result (λ v. v ≡ kinds.Octets
            (owner_of (option_map (λ (e : Holder). e.owner) self.now.enabler)
            (lasting now self.now.reservation))) }
    {
        match (&self.reservation, &self.enabler) {
            (Some(reserved), _) if !reserved.is_run_out(now) => octets(
                alloc,
                reserved.owner().as_slice(),
            ),
            (_, Some(enabler)) => octets(alloc, enabler.owner.as_slice()),
            _ => octets(alloc, &[]),
        }
    }

    /// What a component reads. `newest` is the moment of the newest entry, retained or not.
    pub fn read(
        &self,
        alloc: Global,
        comp: Comp,
        kept: Retained,
        newest: Option<Moment>,
        now: Moment,
    ) -> Result<Value, AllocError>
        ensures { IfOk result (λ v. v ≡ read_of comp kept newest now self.now) }
    {
        match comp {
            Comp::RptID => text(alloc, self.options.rpt_id()),
            Comp::RptEna => Ok(Value::Bool(self.enabler.is_some())),
            Comp::DatSet => text(alloc, self.options.dat_set()),
            Comp::ConfRev => Ok(Value::Uint(u64::from(self.revision))),
            Comp::OptFlds => bits(alloc, self.options.opt_flds()),
            Comp::BufTm => Ok(Value::Uint(u64::from(self.options.buf_tm()))),
            Comp::SqNum => Ok(Value::Uint(u64::from(self.count))),
            Comp::TrgOps => bits(alloc, self.options.trg_ops()),
            Comp::IntgPd => Ok(Value::Uint(u64::from(self.options.intg_pd()))),
            Comp::GI | Comp::PurgeBuf => Ok(Value::Bool(false)),
            Comp::EntryID => entry_id(alloc, kept.len),
            Comp::TimeofEntry => Ok(Value::Stamp(time_of_entry(newest))),
            Comp::ResvTms => Ok(Value::Int(i64::from(self.seconds(now)))),
            Comp::Owner => self.read_owner(alloc, now),
        }
    }
}
