//! Where moments come from.

ghost use Rattle.std.specs.Prelude.{◌≡◌, ℕ, Option, Some, IfSome};

use sv_base::Moment;

/// What says the moment, and lets a thread that has nothing to do rest.
pub trait Clock {
    /// The moment that every `now` gives, where it is told.
    ghost moment: { Self → Option ℕ };

    /// The moment. Of a real clock that is the nearest one, and the least where the clock can't be read.
    fn now(&self) -> Moment
        ensures moment { IfSome (moment self.now) (λ m. result ≡ m) };

    /// Rests a while. It may wait. No contract says how long.
    fn rest(&self);

    /// Tells those who rest that there may be something to do. No contract says that they go on.
    fn stir(&self) {}
}

/// A clock that stands at a moment.
#[derive(Clone, Copy, Debug)]
pub struct FixedClock(pub Moment);

impl Clock for FixedClock {
    ghost moment = { λ c. Some c.0 };

    fn now(&self) -> Moment
        ensures { result ≡ self.now.0 }
    {
        self.0
    }

    fn rest(&self) {}
}
