//! The clock of the system.

use std::thread;
use std::time::{self, Duration};
use sv_base::Moment;
use sv_io::Clock;

/// How long a rest is, in milliseconds.
const REST: u64 = 1;

/// The greatest moment, in milliseconds since 1970.
const LAST: u64 = 4294967295999;

/// The clock of the system. It gives the moment in milliseconds since 1970, within the range of moments, and the least moment where it
/// can't be read.
#[derive(Drop)]
pub struct SystemClock<'a, R> {
    rt: &'a R,
}

impl<'a, R> SystemClock<'a, R> {
    /// The clock of this runtime.
    pub fn new(rt: &'a R) -> Self {
        SystemClock { rt }
    }
}

/// The moment of n milliseconds since 1970, or the nearest one.
fn nearest(ms: u128) -> Moment {
    let ms = u64::try_from(ms).unwrap_or(u64::MAX);
    Moment::new(ms.min(LAST)).unwrap_or(Moment::first())
}

impl<'a, R: time::Clock> Clock for SystemClock<'a, R> {
    ghost use Rattle.std.specs.Prelude.{None};

    ghost moment = { λ _. None };

    fn now(&self) -> Moment {
        match self.rt.since_1970() {
            Ok(since) => nearest(since.as_millis()),
            Err(_) => Moment::first(),
        }
    }

    fn rest(&self) {
        thread::sleep(self.rt, Duration::from_millis(REST));
    }
}
