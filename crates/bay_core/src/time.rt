//! Time passes for a bay (IEC 61850-7-2, BRCB attributes BufTm and IntgPd).

use crate::bay::Bay;
use block_events::{Source, pass_due};
use sv_base::Moment;

impl Bay {
    ghost use Rattle.std.specs.Prelude.{◌≡◌, ◌<◌, ◌^◌, ◌∷◌, ℕ, suc};
    ghost use Rattle.sv_base.specs.declared.config.Config.{Config};
    ghost use Rattle.bay_model.specs.Points.{Past};
    ghost use Rattle.bay_model.specs.Singles.{arrival};
    ghost use Rattle.bay_core.specs.Standing.{StandsAt};
    ghost use Rattle.bay_core.specs.Timed.{at_arrival};

    /// Time passes, up to the moment of a step: what is over closes, and integrity entries come. No block is looked at that has nothing
    /// due. It takes no memory.
    pub(crate) fn arrive(&mut self, moment: Moment)
        ensures state { self.new ≡ at_arrival moment self.old }
        // A state that stands for points stands for them and the arrival of the next one.
        ensures stands { (c : Config) (n : ℕ) (past : Past) → StandsAt self.old c n past
            → StandsAt self.new c n (arrival n moment ∷ past) }
    {
        let now = self.latest.later(moment);
        let source = Source {
            store: self.values.store(),
            book: &self.sets,
            rows: self.model.nodes().as_slice(),
        };
        pass_due(
            &mut self.parts,
            &mut self.dues,
            &source,
            self.latest,
            now,
            self.steps,
            &mut self.octets,
        );
        self.associations.advance(now);
        self.latest = now;
    }

    /// One more step was made.
    pub(crate) fn count(&mut self)
        requires { self.old.steps < 2 ^ 62 }
        ensures { self.new ≡ record self.old { steps = suc self.old.steps } }
    {
        self.steps += 1;
    }
}
