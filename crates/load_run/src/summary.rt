//! What the answers to a history come to in numbers.

use bay_model::{Answer, Output};

/// How many steps a history has, how many reports its takes gave, and how many of these have the mark that unsent entries were discarded
/// before them.
#[derive(Clone, Copy, Debug)]
pub struct Summary {
    pub steps: u64,
    pub reports: u64,
    pub marked: u64,
}

impl Summary {
    ghost use Rattle.std.specs.Prelude.{◌≡◌, ◌<◌, ◌^◌, []};
    ghost use Rattle.bay_model.specs.Model.{Model};
    ghost use Rattle.load_run.specs.Summaries.{summary_of};
    ghost use Rattle.load_run.specs.Counting.{with_answer, IsWithin};

    /// That of no step.
    pub fn new() -> Summary
        ensures none { (m : Model) → result ≡ summary_of m [] }
        ensures few { IsWithin result 0 }
    {
        Summary {
            steps: 0,
            reports: 0,
            marked: 0,
        }
    }

    /// Counts one step more, which is answered so.
    pub fn count(&mut self, answer: &Answer)
        requires { IsWithin self.old (2 ^ 62) }
        ensures { self.new ≡ with_answer self.old answer.now }
    {
        self.steps += 1;
        if let Answer::Taken(Output::Report(report)) = answer {
            self.reports += 1;
            if report.ovfl {
                self.marked += 1;
            }
        }
    }
}
