//! What is promised of all streams, TPKTs and TPDUs: each function here runs nothing, and its contract is a law.

ghost use Rattle.std.specs.Prelude.{◌≡◌, ◌≢◌, ℕ, ◌<◌, ◌≤◌, ◌^◌, Bool, true, false, List, [], ◌∷◌};
ghost use Rattle.std.specs.Prelude.{◌++◌, length, Option, Some, None, Ok, Err};
ghost use Rattle.std.specs.Prelude.{MatchOption, MatchResult};
ghost use Rattle.std.specs.Option.{option_to_list};
ghost use Rattle.std.specs.List.{AllByRecursion};
ghost use Rattle.tpkt_cotp.specs.declared.fault.TpFault.{TpFault};
ghost use Rattle.tpkt_cotp.specs.declared.state.State.{State};
ghost use Rattle.tpkt_cotp.specs.declared.transport.TransportIn.{TransportIn};
ghost use Rattle.tpkt_cotp.specs.declared.tsdus.Cr.{Cr};
ghost use Rattle.tpkt_cotp.specs.declared.tsdus.Tpkt.{Tpkt};
ghost use Rattle.tpkt_cotp.specs.declared.tsdus.Tsdu.{Tsdu};
ghost use Rattle.tpkt_cotp.specs.declared.tsdus.Tsdu.TheVariants.{Connect, Data};
ghost use Rattle.ber_grammar.specs.Octets.{IsBytes};
ghost use Rattle.tpkt_cotp.specs.Packet.{packet, packet_at, IsTpdu, IsPartial, IsBad};
ghost use Rattle.tpkt_cotp.specs.Tpdu.{tpdu_at, IsConnection, IsTaken, IsRefusedTpdu};
ghost use Rattle.tpkt_cotp.specs.Stream.{StandsFor, StandsAt, IsRefused, IsOpen, Keeps, IsReady};
ghost use Rattle.tpkt_cotp.specs.Stream.{StepsFrom, gift};
ghost use Rattle.tpkt_cotp.specs.Written.{IsCr, IsExponent, Fits, room, AreSegments, segments_of};
ghost use Rattle.tpkt_cotp.specs.Written.{tsdu_of, parameters_for, confirm_of, confirmed};
ghost use Rattle.tpkt_cotp.specs.Written.{call_of, called_with};

/// TPKTs are read as RFC 1006 spells them: what reading gives is what the input spells, and the other way round. No TPKT
/// begins another.
pub fn tpkts_are_read_as_spelled()
    ensures tells { (input : List ℕ) → IsBytes input
        → MatchResult (packet_at input) (λ o. MatchOption o (IsPartial input) (λ p. IsTpdu p.0
        × (input ≡ packet p.0 ++ p.1))) (λ f. IsBad input f) }
    ensures whole { (tpdu after : List ℕ) → IsTpdu tpdu
        → packet_at (packet tpdu ++ after) ≡ Ok (Some (tpdu, after)) }
    ensures partial { (input : List ℕ) → IsBytes input → IsPartial input
        → packet_at input ≡ Ok None }
    ensures bad { (input : List ℕ) (f : TpFault) → IsBad input f → packet_at input ≡ Err f }
    ensures free { (tpdu after other more : List ℕ) → IsTpdu tpdu → IsTpdu other
        → packet tpdu ++ after ≡ packet other ++ more → (tpdu ≡ other)
        × (after ≡ more) }
{}

/// TPDUs are read as ISO 8073 spells them: what reading gives is what the TPDU spells, and the other way round, and so for
/// each refusal.
pub fn tpdus_are_read_as_spelled()
    ensures tells { (s : State) (tpdu : List ℕ)
        → MatchResult (tpdu_at s tpdu) (λ x. IsTaken s tpdu x.0 x.1) (λ f. IsRefusedTpdu s tpdu f) }
    ensures taken { (s t : State) (tpdu : List ℕ) (given : Option Tsdu) → IsTaken s tpdu t given
        → tpdu_at s tpdu ≡ Ok (t, given) }
    ensures refused { (s : State) (tpdu : List ℕ) (f : TpFault) → IsRefusedTpdu s tpdu f
        → tpdu_at s tpdu ≡ Err f }
{}

/// A stream stands for one list of TSDUs, however it was cut: two objects that stand for the same octets gave the same and
/// are the same. A stream that is refused is refused for one reason, after one list; no object stands for it; and what
/// follows changes nothing.
pub fn a_stream_gives_one_list()
    ensures once { (a b : TransportIn) (dialled : Bool) (octets : List ℕ) (es ds : List Tsdu)
        → StandsFor a dialled octets es
        → StandsFor b dialled octets ds → (es ≡ ds) × (a ≡ b) }
    ensures refused { (dialled : Bool) (octets : List ℕ) (es ds : List Tsdu) (f g : TpFault)
        → IsRefused dialled octets es f
        → IsRefused dialled octets ds g → (es ≡ ds) × (f ≡ g) }
    ensures never { (a : TransportIn) (dialled : Bool) (octets : List ℕ) (es ds : List Tsdu)
        (f : TpFault) → StandsFor a dialled octets es
        → IsRefused dialled octets ds f → ⊥ }
    ensures still { (dialled : Bool) (octets more : List ℕ) (es : List Tsdu) (f : TpFault)
        → IsBytes more → IsRefused dialled octets es f
        → IsRefused dialled (octets ++ more) es f }
{}

/// An object keeps less than one TPKT and no more of a TSDU than one may have; each connection that it gives is one that
/// `confirm` can be asked for, and no TSDU has more than 70000 octets.
pub fn little_is_kept()
    ensures kept { (a : TransportIn) (dialled : Bool) (octets : List ℕ) (es : List Tsdu)
        → StandsFor a dialled octets es → Keeps a 65534 70000 }
    ensures fit { (a : TransportIn) (dialled : Bool) (octets : List ℕ) (es : List Tsdu)
        → StandsFor a dialled octets es → AllByRecursion Fits es }
    ensures step { (a b : TransportIn) (piece rest : List ℕ) (taken : Option Tpkt) → IsBytes piece
        → IsReady a → StepsFrom a b piece taken rest
        → AllByRecursion Fits (option_to_list (gift taken)) }
{}

/// The DTs that `tsdu` writes are the only ones that carry the octets with each but the last full. After any stream that
/// left a connection open, the other side reads them as this one TSDU, in whatever pieces they come, and refuses none.
pub fn a_tsdu_is_read_back()
    ensures segments { (exponent : ℕ) (octets : List ℕ) → IsExponent exponent
        → AreSegments (room exponent) octets (segments_of (room exponent) octets) }
    ensures only { (exponent : ℕ) (octets : List ℕ) (tpdus : List (List ℕ)) → IsExponent exponent
        → AreSegments (room exponent) octets tpdus
        → tpdus ≡ segments_of (room exponent) octets }
    ensures read { (a b : TransportIn) (dialled : Bool) (before octets : List ℕ) (exponent : ℕ)
        (es ds : List Tsdu) → IsExponent exponent
        → length octets ≤ 70000
        → StandsFor a dialled before es → IsOpen a
        → StandsFor b dialled (before ++ tsdu_of exponent octets) ds
        → (ds ≡ es ++ Data octets ∷ []) × IsOpen b }
    ensures taken { (dialled : Bool) (s : State) (before octets : List ℕ) (exponent : ℕ)
        (es : List Tsdu) → IsExponent exponent
        → length octets ≤ 70000 → IsBytes octets
        → StandsAt dialled s [] before es → s.connected ≡ true → s.tsdu ≡ [] → (t : State)
        × StandsAt dialled t [] (before ++ tsdu_of exponent octets) (es ++ Data octets ∷ [])
        × (t.connected ≡ true) × (t.tsdu ≡ []) }
{}

/// What `confirm` asks for is what a CR can say: whatever a CR says it can be asked for, and some CR says it.
pub fn what_a_cr_says_is_confirmed()
    ensures asked { (li : ℕ) (rest : List ℕ) (cr : Cr) → li ≤ 255
        → IsConnection li rest cr → IsCr cr }
    ensures said { (cr : Cr) → IsCr cr → (li : ℕ) × (rest : List ℕ) × (li ≤ 255)
        × IsConnection li rest cr }
{}

/// The CR that `call` writes and the CC that `confirm` writes are read by the other side, in whatever pieces they come, and
/// leave a connection open; none is refused.
pub fn a_connection_is_read_back()
    ensures call { (a : TransportIn) (src : ℕ) (es : List Tsdu) → StandsFor a false (call_of src) es
        → (es ≡ Connect (called_with src) ∷ []) × IsOpen a }
    ensures confirm { (a : TransportIn) (cr : Cr) (es : List Tsdu) → IsCr cr
        → StandsFor a true (confirm_of cr) es
        → (es ≡ Connect (confirmed cr) ∷ []) × IsOpen a }
    ensures call_taken { (src : ℕ) → src < 2 ^ 16 → (t : State) × StandsAt false t [] (call_of src)
        (Connect (called_with src) ∷ [])
        × (t.connected ≡ true) × (t.tsdu ≡ []) }
    ensures confirm_taken { (cr : Cr) → IsCr cr → cr.src < 2 ^ 16 → IsBytes (parameters_for cr)
        → (t : State) × StandsAt true t [] (confirm_of cr) (Connect (confirmed cr) ∷ [])
        × (t.connected ≡ true) × (t.tsdu ≡ []) }
{}
