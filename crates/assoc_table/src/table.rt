//! The associations of a bay by their numbers.

use crate::seat::Seat;
use crate::waiting::{Ends, Full, Waiting};
use std::alloc::{AllocError, Global};
use std::marker::Model;
use sv_base::{ActorNo, AssocNo, Owner};

/// How many associations there may be.
const COUNT: usize = 16;

/// The associations, numbered 1 to 16. Contracts see a row for each, in the order of their numbers.
#[derive(Drop)]
pub struct Assocs {
    seats: Vec<Seat>,
}

impl Model for Assocs {
    ghost use Rattle.std.specs.Prelude.{◌≡◌, List, length};
    ghost use Rattle.assoc_table.specs.Seats.{Row};

    ghost Value = { List Row };

    ghost use Rattle.std.specs.Coded.{codes};
    ghost use Rattle.sv_base.specs.Tree.{row_code};

    ghost coded = { Prim.hlevel (codes, row_code) };

    ghost view = { λ t. t.seats.items };

    ghost invariant = { λ t. length t.seats.items ≡ 16 };
}

impl Assocs {
    ghost use Rattle.std.specs.Prelude.{◌≡◌, ◌∷◌, [], None, nat_le, is_some, replicate, slice_get};
    ghost use Rattle.std.specs.Prelude.{option_copied, IfOk, OnOk, OnErr};
    ghost use Rattle.std.specs.Option.{option_map};
    ghost use Rattle.assoc_table.specs.Seats.{closed, replies, IsNew, outcome};
    ghost use Rattle.assoc_table.specs.Tables.{IsNumber, row_of, started, ended, extended, taken};

    /// No association is open. All the memory that they ever need is allocated.
    pub fn open(alloc: Global) -> Result<Assocs, AllocError>
        ensures { IfOk result (λ t. t ≡ replicate 16 closed) }
    {
        let mut seats = Vec::new(alloc);
        while seats.len() < COUNT {
            seats.push(Seat::new(alloc)?)?;
        }
        Ok(Assocs { seats })
    }

    fn seat(&self, a: AssocNo) -> &Seat
        requires { IsNumber a.0 }
        ensures { result.now ≡ row_of self.now a.0 }
    {
        &self.seats[a.0 as usize - 1]
    }

    /// The association is open.
    pub fn is_open(&self, a: AssocNo) -> bool
        requires { IsNumber a.0 }
        ensures { result ≡ is_some (row_of self.now a.0).ends }
    {
        self.seat(a).ends().is_some()
    }

    /// Who opened it; none exactly where it isn't open.
    pub fn opener(&self, a: AssocNo) -> Option<ActorNo>
        requires { IsNumber a.0 }
        ensures { result ≡ option_map (λ e. e.opener) (row_of self.now a.0).ends }
    {
        self.seat(a).ends().map(|ends| ends.opener)
    }

    /// Who takes for it; none exactly where it isn't open.
    pub fn writer(&self, a: AssocNo) -> Option<ActorNo>
        requires { IsNumber a.0 }
        ensures { result ≡ option_map (λ e. e.writer) (row_of self.now a.0).ends }
    {
        self.seat(a).ends().map(|ends| ends.writer)
    }

    /// Its greatest size of a PDU in octets; none exactly where it isn't open.
    pub fn size(&self, a: AssocNo) -> Option<u32>
        requires { IsNumber a.0 }
        ensures { result ≡ option_map (λ e. e.size) (row_of self.now a.0).ends }
    {
        self.seat(a).ends().map(|ends| ends.size)
    }

    /// Its address; none exactly where it isn't open.
    pub fn owner(&self, a: AssocNo) -> Option<Owner>
        requires { IsNumber a.0 }
        ensures { result ≡ option_map (λ e. e.owner) (row_of self.now a.0).ends }
    {
        self.seat(a).ends().map(|ends| ends.owner)
    }

    /// Opens an association that isn't open. It takes no memory.
    pub fn start(&mut self, a: AssocNo, ends: Ends)
        requires number { IsNumber a.0 }
        requires closed { (row_of self.old a.0).ends ≡ None }
        ensures { self.new ≡ started self.old a.0 ends }
    {
        self.seats[a.0 as usize - 1].start(ends);
    }

    /// Ends an association; what waits for it is dropped.
    pub fn end(&mut self, a: AssocNo)
        requires { IsNumber a.0 }
        ensures { self.new ≡ ended self.old a.0 }
    {
        self.seats[a.0 as usize - 1].end();
    }

    /// Puts an item after those that wait for an association. It takes no memory.
    ///
    /// Full exactly where the item is a reply and 16 replies wait. No termination of the item's control waits already.
    pub fn queue(&mut self, a: AssocNo, item: Waiting) -> Result<(), Full>
        requires number { IsNumber a.0 }
        requires new { IsNew item (row_of self.old a.0).waiting }
        ensures answer { result ≡ outcome item (row_of self.old a.0).waiting }
        ensures queued { OnOk result (self.new ≡ extended self.old a.0 (item ∷ [])) }
        ensures kept { OnErr result (self.new ≡ self.old) }
    {
        self.seats[a.0 as usize - 1].queue(item)
    }

    /// 16 replies wait for an association.
    pub fn is_full(&self, a: AssocNo) -> bool
        requires { IsNumber a.0 }
        ensures { result ≡ nat_le 16 (replies (row_of self.now a.0).waiting) }
    {
        self.seat(a).is_full()
    }

    /// What waits longest for an association, lent; none exactly where nothing waits.
    pub fn oldest(&self, a: AssocNo) -> Option<&Waiting>
        requires { IsNumber a.0 }
        ensures { option_copied result ≡ slice_get (row_of self.now a.0).waiting 0 }
    {
        self.seat(a).oldest()
    }

    /// Takes what waits longest for an association; none exactly where nothing waits.
    pub fn pop(&mut self, a: AssocNo) -> Option<Waiting>
        requires { IsNumber a.0 }
        ensures value { result ≡ slice_get (row_of self.old a.0).waiting 0 }
        ensures left { self.new ≡ taken self.old a.0 }
    {
        self.seats[a.0 as usize - 1].pop()
    }
}
