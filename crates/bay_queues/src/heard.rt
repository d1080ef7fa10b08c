//! What came of the single reads and writes of a request so far.

ghost use Rattle.std.specs.Prelude.{◌≡◌, ◌≤◌, ◌<◌, ◌++◌, ◌∷◌, [], vec_len, vec_capacity};
ghost use Rattle.bay_model.specs.declared.access_errors.TheConstants.{OBJECT_ACCESS_DENIED};

use bay_model::{Act, ApplError, access_errors};
use std::alloc::{AllocError, Global};
use std::marker::Model;
use sv_base::CtlNo;

/// The codes of a request's writes, the errors that go before its reply, the controls that act, and those whose terminations follow the
/// reply, all in memory that was allocated before.
#[derive(Drop)]
pub struct Heard {
    room: usize,
    answers: Vec<Result<(), u8>>,
    before: Vec<ApplError>,
    acts: Vec<Act>,
    tests: Vec<CtlNo>,
}

/// What a request came to.
#[derive(Drop)]
pub struct Parts {
    pub codes: Vec<Result<(), u8>>,
    pub before: Vec<ApplError>,
    pub acts: Vec<Act>,
    pub tests: Vec<CtlNo>,
}

impl Model for Heard {
    ghost use Rattle.std.specs.Prelude.{◌≤◌, length, vec_capacity};
    ghost use Rattle.bay_queues.specs.Heard.{Heard};

    ghost Value = { Heard };

    ghost use Rattle.std.specs.Coded.{codes};
    ghost use Rattle.sv_base.specs.Tree.{row_code};

    ghost coded = { Prim.hlevel (codes, row_code) };

    ghost view = { λ h. record {
      codes = h.answers.items;
      before = h.before.items;
      acts = h.acts.items;
      tests = h.tests.items;
      room = h.room;
    } };

    ghost invariant = { λ h. (h.room ≤ vec_capacity h.answers) × (h.room ≤ vec_capacity h.before)
        × (h.room ≤ vec_capacity h.acts)
        × (h.room ≤ vec_capacity h.tests)
        × (length h.before.items ≤ length h.answers.items)
        × (length h.acts.items ≤ length h.answers.items)
        × (length h.tests.items ≤ length h.answers.items) };
}

/// Adds something in memory that was allocated before.
fn add<T: Drop>(items: &mut Vec<T>, item: T)
    requires room { vec_len items.old < vec_capacity items.old }
    ensures added { items.new.items ≡ items.old.items ++ item ∷ [] }
    ensures room { vec_capacity items.old ≤ vec_capacity items.new }
{
    let _ = items.push(item);
}

impl Heard {
    ghost use Rattle.std.specs.Prelude.{◌≡◌, ◌<◌, ◌++◌, ◌∷◌, [], Err, Ok, length, IfOk};
    ghost use Rattle.bay_queues.specs.Heard.{unheard};

    /// Nothing yet, with capacity for n singles.
    pub fn new(alloc: Global, room: usize) -> Result<Heard, AllocError>
        ensures { IfOk result (λ h. h ≡ unheard room) }
    {
        let answers = Vec::with_capacity(alloc, room)?;
        let before = Vec::with_capacity(alloc, room)?;
        let acts = Vec::with_capacity(alloc, room)?;
        let tests = Vec::with_capacity(alloc, room)?;
        Ok(Heard {
            room,
            answers,
            before,
            acts,
            tests,
        })
    }

    /// A write that is no command was answered so.
    pub fn code(&mut self, code: Result<(), u8>)
        requires room { length self.old.codes < self.old.room }
        ensures { self.new ≡ record self.old { codes = self.old.codes ++ code ∷ [] } }
    {
        add(&mut self.answers, code);
    }

    /// A command was refused with an error.
    pub(crate) fn barred(&mut self, error: ApplError)
        requires room { length self.old.codes < self.old.room }
        ensures { self.new ≡ record self.old {
          codes = self.old.codes ++ Err OBJECT_ACCESS_DENIED
              ∷ [];
          before = self.old.before ++ error ∷ [];
        } }
    {
        add(&mut self.before, error);
        add(&mut self.answers, Err(access_errors::OBJECT_ACCESS_DENIED));
    }

    /// An Oper was accepted, and its control acts.
    pub(crate) fn acted(&mut self, act: Act)
        requires room { length self.old.codes < self.old.room }
        ensures { self.new ≡ record self.old {
          codes = self.old.codes ++ Ok tt ∷ [];
          acts = self.old.acts ++ act ∷ [];
        } }
    {
        add(&mut self.acts, act);
        add(&mut self.answers, Ok(()));
    }

    /// A test operate was accepted, whose termination follows the reply.
    pub(crate) fn tested(&mut self, control: CtlNo)
        requires room { length self.old.codes < self.old.room }
        ensures { self.new ≡ record self.old {
          codes = self.old.codes ++ Ok tt ∷ [];
          tests = self.old.tests ++ control ∷ [];
        } }
    {
        add(&mut self.tests, control);
        add(&mut self.answers, Ok(()));
    }

    /// What it came to, part by part.
    pub fn parts(self) -> Parts
        ensures codes { result.codes.items ≡ self.codes }
        ensures before { result.before.items ≡ self.before }
        ensures acts { result.acts.items ≡ self.acts }
        ensures tests { result.tests.items ≡ self.tests }
    {
        Parts {
            codes: self.answers,
            before: self.before,
            acts: self.acts,
            tests: self.tests,
        }
    }
}
