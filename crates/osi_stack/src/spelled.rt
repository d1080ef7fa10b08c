//! What is promised of events: the productions of the standards that spell them.

ghost use Rattle.std.specs.Prelude.{◌≡◌, ◌⊎◌, ◌<◌, ◌≤◌, ◌^◌, ℕ, true, List, [], ◌∷◌, Option, Ok};
ghost use Rattle.ber_grammar.specs.Octets.{IsBytes};
ghost use Rattle.tpkt_cotp.specs.declared.tsdus.Tsdu.{Tsdu};
ghost use Rattle.session_pres.specs.declared.codes.TheConstants.{FINISH, DISCONNECT};
ghost use Rattle.session_pres.specs.Plain.{Asked};
ghost use Rattle.session_pres.specs.Presentation.{Request};
ghost use Rattle.session_pres.specs.Written.{release_spdu};
ghost use Rattle.acse_apdu.specs.declared.codes.TheConstants.{RLRQ, RLRE};
ghost use Rattle.acse_apdu.specs.Written.{release_octets};
ghost use Rattle.mms_initiate.specs.InitiateOctets.{accepted, proposed};
ghost use Rattle.mms_initiate.specs.declared.initiate.Initiate.{Initiate};
ghost use Rattle.osi_stack.specs.declared.caller.Caller.{Caller};
ghost use Rattle.osi_stack.specs.declared.cause.Cause.{Cause};
ghost use Rattle.osi_stack.specs.declared.events.Event.{Event};
ghost use Rattle.osi_stack.specs.declared.phase.Phase.{Phase};
ghost use Rattle.osi_stack.specs.declared.upper.Upper.{Upper};
ghost use Rattle.osi_stack.specs.Called.{acceptance};
ghost use Rattle.osi_stack.specs.Calling.{request_spdu};
ghost use Rattle.osi_stack.specs.Lines.{IsProposal};
ghost use Rattle.osi_stack.specs.Machine.{tsdu_at};
ghost use Rattle.osi_stack.specs.Refusals.{IsTsduRefused, SpellsRefusal};
ghost use Rattle.osi_stack.specs.Sides.{StandsFor, CallsFor};
ghost use Rattle.osi_stack.specs.Spelled.{IsRequest, IsResponse, IsData, IsFinish, IsDisconnect};
ghost use Rattle.osi_stack.specs.Spelled.{Tells, HasOctets, Spells};
ghost use Rattle.osi_stack.specs.Stream.{Stand, called, calling, StandsAt, IsRefused};

/// The octets that an object was fed spell the events that it gave, by the productions of RFC 1006, ISO 8073, ISO 8327-1,
/// ISO 8823-1, ISO 8650-1 and ISO 9506-2; and a stream that spells events stands for them.
pub fn events_are_what_octets_spell()
    ensures upper { (u : Upper) (octets : List ℕ) (es : List Event) → StandsFor u octets es
        → (t : Stand) × (rest : List ℕ) × Spells called t rest octets es }
    ensures caller { (x : Caller) (size : ℕ) (octets : List ℕ) (es : List Event)
        → CallsFor x size octets es → (t : Stand) × (rest : List ℕ)
        × Spells (calling size) t rest octets es }
    ensures spells { (from t : Stand) (rest octets : List ℕ) (es : List Event)
        → IsBytes from.transport.tsdu → StandsAt from t rest octets es
        → Spells from t rest octets es }
    ensures stands { (from t : Stand) (rest octets : List ℕ) (es : List Event)
        → Spells from t rest octets es → StandsAt from t rest octets es }
    ensures tells { (phase : Phase) (tsdu : Tsdu) (x : Phase × Option Event) → HasOctets tsdu
        → tsdu_at phase tsdu ≡ Ok x → Tells phase tsdu x }
    ensures told { (phase : Phase) (tsdu : Tsdu) (x : Phase × Option Event) → Tells phase tsdu x
        → tsdu_at phase tsdu ≡ Ok x }
{}

/// What refuses a stream is the first production that isn't there, with its cause: a TSDU says something to a connection or is
/// refused for one cause, one of the two, and never both.
pub fn refusals_are_what_octets_lack()
    ensures spells { (from : Stand) (octets : List ℕ) (es : List Event) (c : Cause) (n : ℕ)
        → IsBytes from.transport.tsdu
        → IsRefused from octets es c n → SpellsRefusal from octets es c n }
    ensures refuses { (from : Stand) (octets : List ℕ) (es : List Event) (c : Cause) (n : ℕ)
        → IsBytes from.transport.tsdu
        → SpellsRefusal from octets es c n → IsRefused from octets es c n }
    ensures answered { (phase : Phase) (tsdu : Tsdu) → HasOctets tsdu
        → ((x : Phase × Option Event) × Tells phase tsdu x)
        ⊎ ((c : Cause) × IsTsduRefused phase tsdu c) }
    ensures one_cause { (phase : Phase) (tsdu : Tsdu) (c d : Cause) → HasOctets tsdu
        → IsTsduRefused phase tsdu c → IsTsduRefused phase tsdu d → c ≡ d }
    ensures not_both { (phase : Phase) (tsdu : Tsdu) (x : Phase × Option Event) (c : Cause)
        → HasOctets tsdu → Tells phase tsdu x
        → IsTsduRefused phase tsdu c → ⊥ }
{}

/// A stream spells one list of events, a TSDU says to a connection one thing, a CONNECT brings one request, an ACCEPT one
/// answer, and data one value in one context.
pub fn what_octets_spell_is_one_thing()
    ensures stream { (from t u : Stand) (rest other octets : List ℕ) (es ds : List Event)
        → Spells from t rest octets es
        → Spells from u other octets ds → (es ≡ ds) × (t ≡ u) × (rest ≡ other) }
    ensures tsdu { (phase : Phase) (tsdu : Tsdu) (x y : Phase × Option Event) → Tells phase tsdu x
        → Tells phase tsdu y → x ≡ y }
    ensures request { (octets : List ℕ) (cp other : Request) (i j : Initiate)
        → IsRequest octets cp i → IsRequest octets other j → (cp ≡ other) × (i ≡ j) }
    ensures response { (octets : List ℕ) (i j : Initiate) → IsResponse octets i
        → IsResponse octets j → i ≡ j }
    ensures value { (octets : List ℕ) (m n : ℕ) (v w : List ℕ) → IsData octets m v
        → IsData octets n w → (m ≡ n) × (v ≡ w) }
{}

/// What one side sends spells what the other reads: the CONNECT of a caller brings its proposal, for the contexts 1 of
/// association control and 3 of MMS; the ACCEPT that answers it brings what of the proposal is accepted; and a FINISH and a
/// DISCONNECT bring their releases.
pub fn what_is_sent_spells_what_is_read()
    ensures connect { (size : ℕ) → IsProposal size
        → (cp : Request) × IsRequest (request_spdu size) cp (proposed size) × (cp.acse ≡ 1)
        × (cp.mms ≡ 3) × (cp.list ≡ true ∷ true ∷ []) }
    ensures accept { (cp : Asked) (asked : Initiate) → cp.acse ≡ 1 → cp.mms < 2 ^ 32
        → cp.list ≡ true ∷ true ∷ [] → 1024 ≤ asked.size
        → IsResponse (acceptance cp asked) (accepted asked) }
    ensures finish { (context : ℕ) → context < 2 ^ 32
        → IsFinish (release_spdu FINISH context (release_octets RLRQ)) context }
    ensures disconnect { IsDisconnect (release_spdu DISCONNECT 1 (release_octets RLRE)) }
{}
