//! The numbers of the calls that are to fail.
ghost use Rattle.std.specs.Prelude.{◌≡◌, ◌↔◌, IsTrue, Contains};

use std::marker::Model;

/// The numbers of the calls that fail, counted from 1; none where it is empty. Contracts see the list of them.
#[derive(Debug, Drop)]
pub struct Calls {
    numbers: Vec<u32>,
}

impl Model for Calls {
    ghost use Rattle.std.specs.Prelude.{ℕ, List};

    ghost Value = { List ℕ };

    ghost view = { λ c. c.numbers.items };
}

impl Calls {
    /// The list of these numbers, each from 1 on. It takes no memory.
    pub fn from_vec(numbers: Vec<u32>) -> Self
        ensures { result ≡ numbers.items }
    {
        Calls { numbers }
    }

    /// The numbers. It takes no memory.
    pub fn into_vec(self) -> Vec<u32>
        ensures { result.items ≡ self }
    {
        self.numbers
    }

    /// The call of this number is one of those that fail.
    pub fn contains(&self, number: u64) -> bool
        ensures { IsTrue result ↔ Contains self.now number }
    {
        self.numbers.iter().any(|n| u64::from(*n) == number)
    }
}
