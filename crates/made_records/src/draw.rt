//! The numbers of a made record, and the line that each comes to.

ghost use Rattle.std.specs.Prelude.{◌≡◌};
ghost use Rattle.made_records.specs.Made.{first_draw, next_draw, line_by};

use crate::line::MadeLine;

/// The moment of a record before its first `at` line.
const FIRST_MOMENT: u64 = 441_763_200_000;

/// The number that was drawn last, at first the seed, and the moment.
#[derive(Clone, Copy, Debug)]
pub struct Draw {
    pub number: u64,
    pub moment: u64,
}

impl Draw {
    ghost use Rattle.std.specs.Prelude.{◌<◌, ◌^◌};

    /// Nothing is drawn yet.
    pub fn new(seed: u64) -> Self
        ensures { result ≡ first_draw seed }
    {
        Draw {
            number: seed,
            moment: FIRST_MOMENT,
        }
    }

    /// Draws the next line.
    pub fn next(&mut self) -> MadeLine
        requires { self.old.moment < 2 ^ 60 }
        ensures line { result ≡ line_by self.old }
        ensures draw { self.new ≡ next_draw self.old }
    {
        self.number = self
            .number
            .wrapping_mul(6_364_136_223_846_793_005)
            .wrapping_add(1_442_695_040_888_963_407);
        let sample = self.number / (1 << 33);
        let rest = sample / 8;
        match sample % 8 {
            0..=3 => MadeLine::Power(rest % 1000),
            4 => MadeLine::Indication(rest % 2 == 1),
            5 => {
                self.moment += rest % 500;
                MadeLine::At(self.moment)
            }
            _ => MadeLine::Take,
        }
    }
}
