//! The first values of an attribute.

use crate::{Few, Value};
use std::marker::Model;

/// The first values of an attribute, mostly one, which takes no memory for itself. Contracts see them as `Values`.
#[derive(Drop)]
pub struct FirstValues {
    values: Few<Value>,
}

impl Model for FirstValues {
    ghost use Rattle.sv_base.specs.Tree.{Row, row_code};
    ghost use Rattle.sv_base.specs.Seen.{row_of};

    ghost Value = { Row };

    ghost coded = { row_code };

    ghost view = { λ v. row_of v.values };
}

#[tactic(auto, using(crate::proofs::RowLaws::rows))]
impl FirstValues {
    ghost use Rattle.std.specs.Prelude.{◌≡◌, slice_get, option_copied};
    ghost use Rattle.sv_base.specs.Seen.{row_of};
    ghost use Rattle.sv_base.specs.Same.{values_of};

    /// These. It takes no memory.
    pub fn new(values: Few<Value>) -> Self
        ensures { result ≡ row_of values }
    {
        FirstValues { values }
    }

    /// The value at a place, counted from 0; none exactly where there are no more than that.
    pub fn get(&self, i: usize) -> Option<&Value>
        ensures { option_copied result ≡ slice_get (values_of self.now) i }
    {
        self.as_slice().get(i)
    }

    /// The values, borrowed.
    pub fn as_slice(&self) -> &[Value]
        ensures row { row_of result.now ≡ self.now }
        ensures items { result.now ≡ values_of self.now }
    {
        self.values.as_slice()
    }
}
