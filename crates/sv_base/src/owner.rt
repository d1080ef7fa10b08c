//! The addresses of clients, as they own report blocks (IEC 61850-7-2, BRCB attribute Owner).

ghost use Rattle.std.specs.Prelude.{◌≡◌, ◌≤◌, length};
ghost use Rattle.sv_base.specs.Owners.{filled};

use crate::AssocNo;
use std::marker::Model;

/// The address of a client, 1 to 64 octets, seen by contracts as the list of them.
#[derive(Clone, Copy, Debug)]
pub struct Owner {
    len: u8,
    octets: [u8; 64],
}

impl Model for Owner {
    ghost use Rattle.std.specs.Prelude.{List, ℕ, take, length};
    ghost use Rattle.sv_base.specs.Owners.{IsAddress, filled};
    ghost use Rattle.std.proofs.Common.{◌∙◌, ap, sym, subst, ◌++◌, ◌-◌, ◌≤◌};
    ghost use Rattle.std.specs.Prelude.{replicate};
    ghost use Rattle.std.proofs.lemmas.List.{length-take-le};

    ghost Value = { List ℕ };

    ghost view = { λ o. take o.len o.octets };

    ghost invariant = { λ o. IsAddress o.len o.octets };

    ghost inverse = { λ row. record { len = length row; octets = filled row } };

    ghost inverse_ok = { λ o h i. record {
      len = length-take-le o.len o.octets (subst (λ n. o.len ≤ n) (sym h.all) h.most) i;
      octets = (ap (λ n. take o.len o.octets ++ replicate (64 - n) 0) (length-take-le o.len o.octets (subst (λ n. o.len ≤ n) (sym h.all) h.most)) ∙ sym h.rest) i;
    } };
}

/// 64 octets that begin with these.
#[tactic(auto, using(crate::proofs::OwnerLaws::rest_of_none))]
fn filled_with(row: &[u8]) -> [u8; 64]
    requires { length row.now ≤ 64 }
    ensures { result ≡ filled row.now }
{
    let mut octets = [0; 64];
    octets[..row.len()].copy_from_slice(row);
    octets
}

/// An address of at least one octet and at most 64.
#[tactic(auto, using(crate::proofs::OwnerLaws::is_address, crate::proofs::OwnerLaws::begins))]
fn here(row: &[u8]) -> Owner
    requires least { 1 ≤ length row.now }
    requires most { length row.now ≤ 64 }
    ensures { result ≡ row.now }
{
    Owner {
        len: row.len() as u8,
        octets: filled_with(row),
    }
}

impl Owner {
    ghost use Rattle.std.specs.Prelude.{◌≡◌, ◌≤◌, length, SomeIff};
    ghost use Rattle.std.specs.Int.{to_be_bytes, w32};

    /// The address of these octets; none exactly where there is no octet or more than 64. It takes no memory.
    pub fn new(octets: &[u8]) -> Option<Owner>
        ensures { SomeIff result ((1 ≤ length octets.now) × (length octets.now ≤ 64)) octets.now }
    {
        if octets.is_empty() || octets.len() > 64 {
            return None;
        }
        Some(here(octets))
    }

    /// The address of an association that says none: its number in four octets, the greatest first.
    pub fn of(a: AssocNo) -> Owner
        ensures { result ≡ to_be_bytes w32 a.0 }
    {
        let octets = a.0.to_be_bytes();
        here(&octets)
    }

    /// Its octets, borrowed.
    pub fn as_slice(&self) -> &[u8]
        ensures value { result.now ≡ self.now }
        ensures least { 1 ≤ length self.now }
        ensures most { length self.now ≤ 64 }
    {
        &self.octets[..self.len as usize]
    }
}
