//! What is promised of all connections: each function here runs nothing, and its contract is a law.

ghost use Rattle.std.specs.Prelude.{◌≡◌, ◌≤◌, ◌<◌, ◌^◌, ℕ, List, [], ◌∷◌, ◌++◌, length};
ghost use Rattle.tpkt_cotp.specs.Written.{IsExponent};
ghost use Rattle.session_pres.specs.Written.{IsOneElement, pdv_list};
ghost use Rattle.osi_stack.specs.declared.events.Event.{Event};
ghost use Rattle.osi_stack.specs.declared.events.Event.TheVariants.{Pdu};
ghost use Rattle.osi_stack.specs.declared.events.Line.{Line};
ghost use Rattle.osi_stack.specs.Framed.{framed};
ghost use Rattle.osi_stack.specs.Open.{IsOpenFor};
ghost use Rattle.osi_stack.specs.declared.cause.Cause.{Cause};
ghost use Rattle.osi_stack.specs.declared.caller.Caller.{Caller};
ghost use Rattle.osi_stack.specs.declared.fault.StackFault.{StackFault};
ghost use Rattle.osi_stack.specs.declared.upper.Upper.{Upper};
ghost use Rattle.osi_stack.specs.Sides.{StandsFor, Refuses, CallsFor, GivesUp};
ghost use Rattle.osi_stack.specs.Standing.{IsAnswered, IsSameRefusal};
ghost use Rattle.osi_stack.specs.Stream.{Stand, called, calling, StandsAt, IsRefused};
ghost use Rattle.ber_grammar.specs.Octets.{IsBytes};

/// A stream comes to one list of events and leaves a connection at one place, or it is refused for one cause, after one
/// list of events and one count of octets: one of the two, and never both. So the way in which it is cut into pieces changes
/// nothing, and neither does what follows a refused stream.
pub fn a_stream_gives_one_list()
    ensures once { (from t u : Stand) (rest other octets : List ℕ) (es ds : List Event)
        → StandsAt from t rest octets es
        → StandsAt from u other octets ds → (es ≡ ds) × (t ≡ u) × (rest ≡ other) }
    ensures refused { (from : Stand) (octets : List ℕ) (es ds : List Event) (c d : Cause) (m n : ℕ)
        → IsRefused from octets es c m
        → IsRefused from octets ds d n → (es ≡ ds) × (c ≡ d) × (m ≡ n) }
    ensures never { (from t : Stand) (rest octets : List ℕ) (es ds : List Event) (c : Cause) (n : ℕ)
        → StandsAt from t rest octets es
        → IsRefused from octets ds c n → ⊥ }
    ensures answered { (from : Stand) (octets : List ℕ) → IsBytes octets → IsAnswered from octets }
    ensures still { (from : Stand) (octets more : List ℕ) (es : List Event) (c : Cause) (n : ℕ)
        → IsBytes more → IsRefused from octets es c n
        → IsRefused from (octets ++ more) es c n }
{}

/// A stream that one side refuses it refuses the same whatever follows, and in whatever pieces it comes: no object stands
/// for more of it, and a call that refuses more of it, after whatever pieces, gives the same events in all, the same cause
/// and the same count, unless it was when out of memory.
pub fn a_refused_stream_stays_refused()
    ensures upper_never { (u : Upper) (octets more : List ℕ) (es ds : List Event) (c : Cause)
        (n : ℕ) → IsBytes more → IsRefused called octets es c n
        → StandsFor u (octets ++ more) ds → ⊥ }
    ensures upper_same { (octets more : List ℕ) (es so_far before now : List Event) (c : Cause)
        (n : ℕ) (f : StackFault) → IsBytes more
        → IsRefused called octets es c n
        → Refuses f (octets ++ more) so_far before now → IsSameRefusal f es c n so_far before now }
    ensures caller_never { (x : Caller) (size : ℕ) (octets more : List ℕ) (es ds : List Event)
        (c : Cause) (n : ℕ) → IsBytes more
        → IsRefused (calling size) octets es c n → CallsFor x size (octets ++ more) ds → ⊥ }
    ensures caller_same { (size : ℕ) (octets more : List ℕ) (es so_far before now : List Event)
        (c : Cause) (n : ℕ) (f : StackFault) → IsBytes more
        → IsRefused (calling size) octets es c n
        → GivesUp f size (octets ++ more) so_far before now
        → IsSameRefusal f es c n so_far before now }
{}

/// What one side frames the other side gives as that PDU, in whatever pieces it comes, after any stream that left the
/// association there, and it refuses none of it.
pub fn frames_are_read_back()
    ensures taken { (from t : Stand) (before pdu : List ℕ) (line : Line) (es : List Event)
        → IsBytes pdu → IsExponent line.exponent
        → line.context < 2 ^ 32 → IsOneElement pdu → length pdu ≤ 65000
        → StandsAt from t [] before es → IsOpenFor t line.context
        → (u : Stand) × StandsAt from u [] (before ++ framed line pdu) (es ++ Pdu pdu ∷ [])
        × IsOpenFor u line.context }
    ensures read { (from t u : Stand) (rest before pdu : List ℕ) (line : Line) (es ds : List Event)
        → IsExponent line.exponent → line.context < 2 ^ 32
        → IsOneElement pdu → length pdu ≤ 65000 → StandsAt from t [] before es
        → IsOpenFor t line.context
        → StandsAt from u rest (before ++ framed line pdu) ds → (ds ≡ es ++ Pdu pdu ∷ [])
        × (rest ≡ []) × IsOpenFor u line.context }
    ensures never { (from t : Stand) (before pdu : List ℕ) (line : Line) (es ds : List Event)
        (c : Cause) (n : ℕ) → IsExponent line.exponent
        → line.context < 2 ^ 32 → IsOneElement pdu → length pdu ≤ 65000
        → StandsAt from t [] before es → IsOpenFor t line.context
        → IsRefused from (before ++ framed line pdu) ds c n → ⊥ }
{}

/// A PDU of at most 4294967000 octets can be framed.
pub fn short_pdus_fit()
    ensures { (context : ℕ) (pdu : List ℕ) → length pdu ≤ 4294967000
        → length (pdv_list context pdu) < 2 ^ 32 }
{}
