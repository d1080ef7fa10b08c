//! A clock whose rests a bell ends.

use crate::clock::Clock;
use std::sync::Wait;
use std::sync::atomic::{AtomicU64, Ordering};
use std::time::Duration;
use sv_base::Moment;

/// How long a rest is that nobody ends, in milliseconds: buffer times and integrity periods pass without a bell.
const REST: u64 = 50;

/// A clock of one association, which gives the moment of another clock. Whoever stirs it ends a rest that has begun, and the next one
/// where none has: so a thread that writes what an association waits for rests while there is nothing to write.
#[derive(Drop)]
pub struct BellClock<'a, R, C> {
    rt: &'a R,
    clock: &'a C,
    rung: AtomicU64,
    heard: AtomicU64,
}

impl<'a, R, C> BellClock<'a, R, C> {
    /// A clock with the moments of another. Nobody has stirred it yet.
    pub fn new(rt: &'a R, clock: &'a C) -> Self {
        BellClock {
            rt,
            clock,
            rung: AtomicU64::new(0),
            heard: AtomicU64::new(0),
        }
    }
}

impl<'a, R: Wait, C: Clock> Clock for BellClock<'a, R, C> {
    ghost moment = { λ c. C.moment c.clock.now };

    fn now(&self) -> Moment {
        self.clock.now()
    }

    fn rest(&self) {
        let heard = self.heard.load(Ordering::SeqCst);
        if self.rung.load(Ordering::SeqCst) == heard {
            let low = (heard & 0xffff_ffff) as u32;
            self.rung
                .park_timeout(self.rt, low, Duration::from_millis(REST));
        }
        let rung = self.rung.load(Ordering::SeqCst);
        self.heard.store(rung, Ordering::SeqCst);
    }

    fn stir(&self) {
        self.rung.fetch_add(1, Ordering::SeqCst);
        self.rung.wake_all();
    }
}
