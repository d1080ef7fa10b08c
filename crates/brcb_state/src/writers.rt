//! The associations that hold a reservation.

use std::marker::Model;
use sv_base::AssocNo;

/// Numbers of associations, seen by contracts as the ascending list of them. They take no memory.
#[derive(Debug, Drop)]
pub struct Writers {
    /// One for each number, from 1.
    flags: [bool; 64],
}

impl Model for Writers {
    ghost use Rattle.std.specs.Prelude.{◌≡◌, List, ℕ, length};
    ghost use Rattle.brcb_state.specs.Flags.{numbers_from};

    ghost Value = { List ℕ };

    ghost view = { λ w. numbers_from 1 w.flags };

    ghost invariant = { λ w. length w.flags ≡ 64 };
}

impl Writers {
    ghost use Rattle.std.specs.Prelude.{◌≡◌, ◌≤◌, ◌∷◌, []};
    ghost use Rattle.bay_model.specs.Breaks.{is_empty as is_empty_list};
    ghost use Rattle.bay_model.specs.Reservations.{with_number, without_number};

    /// No number.
    #[tactic(auto, using(crate::proofs::FlagLaws::none_set))]
    fn none() -> Writers
        ensures { result ≡ [] }
    {
        Writers { flags: [false; 64] }
    }

    /// This one alone.
    pub fn of(a: AssocNo) -> Writers
        requires { (1 ≤ a.0) × (a.0 ≤ 64) }
        ensures { result ≡ a.0 ∷ [] }
    {
        let mut writers = Writers::none();
        writers.insert(a);
        writers
    }

    /// There is none.
    #[tactic(auto, using(crate::proofs::FlagLaws::none_there))]
    pub fn is_empty(&self) -> bool
        ensures { result ≡ is_empty_list self.now }
    {
        !self.flags.contains(&true)
    }

    /// Puts one in.
    #[tactic(auto, using(crate::proofs::FlagLaws::is_set))]
    pub fn insert(&mut self, a: AssocNo)
        requires { (1 ≤ a.0) × (a.0 ≤ 64) }
        ensures { self.new ≡ with_number a.0 self.old }
    {
        self.flags[a.0 as usize - 1] = true;
    }

    /// Takes one out.
    #[tactic(auto, using(crate::proofs::FlagLaws::is_unset))]
    pub fn remove(&mut self, a: AssocNo)
        requires { (1 ≤ a.0) × (a.0 ≤ 64) }
        ensures { self.new ≡ without_number a.0 self.old }
    {
        self.flags[a.0 as usize - 1] = false;
    }
}
