//! Who has reserved a block (IEC 61850-7-2, BRCB attributes ResvTms and Owner).

use crate::writers::Writers;
use std::marker::Model;
use sv_base::{AssocNo, Moment, Owner};

/// A reservation of a block, which may have run out since it was looked at last.
#[derive(Debug, Drop)]
pub struct Reserved {
    /// The address that it is for.
    owner: Owner,
    seconds: u16,
    /// The associations whose writes were accepted since it was made, and that weren't lost since their last.
    writers: Writers,
    /// Since when it is loose, where there is none of them.
    since: Moment,
}

impl Model for Reserved {
    ghost use Rattle.bay_model.specs.Reservations.{Reservation};

    ghost Value = { Reservation };

    ghost view = { λ r. record {
      owner = r.owner;
      seconds = r.seconds;
      writers = r.writers;
      since = r.since;
    } };
}

impl Reserved {
    ghost use Rattle.std.specs.Prelude.{◌≡◌, ◌≤◌, ◌∷◌, [], not};
    ghost use Rattle.std.specs.Str.{bytes_eq};
    ghost use Rattle.bay_model.specs.Reservations.{is_run_out, is_for_another, with_writer};
    ghost use Rattle.bay_model.specs.Reservations.{without_writer};

    /// A reservation for an address, by the write of an association.
    pub fn by(a: AssocNo, owner: &Owner, seconds: u16, now: Moment) -> Reserved
        requires { (1 ≤ a.0) × (a.0 ≤ 64) }
        ensures { result ≡ record {
          owner = owner.now;
          seconds = seconds;
          writers = a.0 ∷ [];
          since = now;
        } }
    {
        Reserved {
            owner: *owner,
            seconds,
            writers: Writers::of(a),
            since: now,
        }
    }

    /// It has run out by now.
    pub fn is_run_out(&self, now: Moment) -> bool
        ensures { result ≡ is_run_out now self.now }
    {
        self.writers.is_empty() && self.since.ms() + 1000 * u64::from(self.seconds) <= now.ms()
    }

    /// It is for another address than this one.
    pub fn is_for_another(&self, owner: &Owner) -> bool
        ensures { result ≡ is_for_another owner.now self.now }
    {
        self.owner.as_slice() != owner.as_slice()
    }

    /// A write of the association was accepted.
    pub fn wrote(&mut self, a: AssocNo)
        requires { (1 ≤ a.0) × (a.0 ≤ 64) }
        ensures { self.new ≡ with_writer a.0 self.old }
    {
        self.writers.insert(a);
    }

    /// The association was lost.
    pub fn lost(&mut self, a: AssocNo, now: Moment)
        requires { (1 ≤ a.0) × (a.0 ≤ 64) }
        ensures { self.new ≡ without_writer now a.0 self.old }
    {
        if !self.writers.is_empty() {
            self.since = now;
        }
        self.writers.remove(a);
    }

    /// The address that it is for.
    pub fn owner(&self) -> &Owner
        ensures { result.now ≡ self.now.owner }
    {
        &self.owner
    }

    /// How many seconds it lasts once it is loose.
    pub fn seconds(&self) -> u16
        ensures { result ≡ self.now.seconds }
    {
        self.seconds
    }
}
