//! What is promised of running a stream: a function of its octets gives the events, or the refusal, that a side answers.

ghost use Rattle.std.specs.Prelude.{◌≡◌, ◌↔◌, ℕ, List, ◌++◌, Some, None};
ghost use Rattle.ber_grammar.specs.Octets.{IsBytes};
ghost use Rattle.osi_stack.specs.declared.caller.Caller.{Caller};
ghost use Rattle.osi_stack.specs.declared.cause.Cause.{Cause};
ghost use Rattle.osi_stack.specs.declared.events.Event.{Event};
ghost use Rattle.osi_stack.specs.declared.fault.StackFault.TheVariants.{Refused};
ghost use Rattle.osi_stack.specs.declared.upper.Upper.{Upper};
ghost use Rattle.osi_stack.specs.Running.{run, further, Keeps, IsRefusedBehind};
ghost use Rattle.osi_stack.specs.Sides.{StandsFor, Refuses, CallsFor, GivesUp};
ghost use Rattle.osi_stack.specs.Stream.{Stand, called, calling, count_of, StandsAt, IsRefused};

/// A stream stands for the events that running it gives, and is refused where running it is, for that cause and after
/// those events and octets; and so for an object of either side and for its calls. With more octets after, running goes on
/// from where it came to.
pub fn streams_are_run()
    ensures stands { (from t : Stand) (rest octets : List ℕ) (es : List Event)
        → StandsAt from t rest octets es ↔ IsBytes octets
        × (run from octets ≡ record { events = es; stand = t; rest = rest; cause = None }) }
    ensures refused { (from : Stand) (octets : List ℕ) (es : List Event) (c : Cause) (n : ℕ)
        → IsRefused from octets es c n ↔ IsBytes octets × ((run from octets).events ≡ es)
        × ((run from octets).cause ≡ Some c)
        × (n ≡ count_of octets (run from octets).rest) }
    ensures continues { (from : Stand) (octets more : List ℕ) → IsBytes octets → IsBytes more
        → run from (octets ++ more) ≡ further (run from octets) more }
    ensures upper_stands { (u : Upper) (octets : List ℕ) (es : List Event)
        → StandsFor u octets es ↔ IsBytes octets × ((run called octets).events ≡ es)
        × Keeps u.connection octets (run called octets) }
    ensures upper_refuses { (layer code count : ℕ) (octets : List ℕ)
        (so_far before now : List Event)
        → Refuses (Refused layer code count) octets so_far before now
        ↔ IsRefusedBehind called (Refused layer code count) octets so_far before now }
    ensures caller_stands { (x : Caller) (size : ℕ) (octets : List ℕ) (es : List Event)
        → CallsFor x size octets es ↔ IsBytes octets × ((run (calling size) octets).events ≡ es)
        × Keeps x.connection octets (run (calling size) octets) }
    ensures caller_refuses { (layer code count size : ℕ) (octets : List ℕ)
        (so_far before now : List Event)
        → GivesUp (Refused layer code count) size octets so_far before now
        ↔ IsRefusedBehind (calling size) (Refused layer code count) octets so_far before now }
{}
