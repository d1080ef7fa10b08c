//! What is promised of all APDUs: each function here runs nothing, and its contract is a law.

ghost use Rattle.std.specs.Prelude.{◌≡◌, ◌<◌, ◌≤◌, ◌^◌, ◌⊎◌, ℕ, List, length, Ok};
ghost use Rattle.ber_grammar.specs.Octets.{IsBytes};
ghost use Rattle.ber_grammar.specs.Place.{Piece};
ghost use Rattle.ber_grammar.specs.Reader.{Reads};
ghost use Rattle.acse_apdu.specs.declared.codes.TheConstants.{RLRQ, RLRE};
ghost use Rattle.acse_apdu.specs.declared.fault.AcFault.{AcFault};
ghost use Rattle.acse_apdu.specs.Grammar.{IsAarq, IsAarqRefused, IsAare, IsAareRefused, IsRelease};
ghost use Rattle.acse_apdu.specs.Reading.{octets_in, aarq_at, aare_at, pdu_of_aarq, pdu_of_aare};
ghost use Rattle.acse_apdu.specs.Reading.{rlrq_of, rlre_of};
ghost use Rattle.acse_apdu.specs.Plain.{IsPlainAarq, IsPlainAare, IsPlainRelease};
ghost use Rattle.acse_apdu.specs.Written.{aarq_content, aare_content, aarq_octets, aare_octets};
ghost use Rattle.acse_apdu.specs.Written.{release_octets};

/// An AARQ or AARE is read as it is spelled, and what it carries doesn't depend on where it lies.
pub fn associations_are_read_as_spelled()
    ensures aarq { (input : Piece) → IsBytes input.octets
        → Reads (λ p. p) (aarq_at input) (IsAarq input) (IsAarqRefused input) }
    ensures aare { (input : Piece) → IsBytes input.octets
        → Reads (λ p. p) (aare_at input) (IsAare input) (IsAareRefused input) }
    ensures aarq_anywhere { (input : Piece) → octets_in (aarq_at input) ≡ pdu_of_aarq input.octets }
    ensures aare_anywhere { (input : Piece) → octets_in (aare_at input) ≡ pdu_of_aare input.octets }
{}

/// What one side writes to ask for an association or to accept one spells that, wherever it lies, and the other side
/// reads it.
pub fn associations_are_read_back()
    ensures aarq { (context : ℕ) (pdu : List ℕ) → context < 2 ^ 32
        → length (aarq_content context pdu) < 2 ^ 32
        → pdu_of_aarq (aarq_octets context pdu) ≡ Ok pdu }
    ensures aare { (context : ℕ) (pdu : List ℕ) → context < 2 ^ 32
        → length (aare_content context pdu) < 2 ^ 32
        → pdu_of_aare (aare_octets context pdu) ≡ Ok pdu }
    ensures aarq_spelled { (input : Piece) (context : ℕ) (pdu : List ℕ) → context < 2 ^ 32
        → length (aarq_content context pdu) < 2 ^ 32
        → input.octets ≡ aarq_octets context pdu → (p : Piece) × IsAarq input p × (p.octets ≡ pdu) }
    ensures aare_spelled { (input : Piece) (context : ℕ) (pdu : List ℕ) → context < 2 ^ 32
        → length (aare_content context pdu) < 2 ^ 32
        → input.octets ≡ aare_octets context pdu → (p : Piece) × IsAare input p × (p.octets ≡ pdu) }
{}

/// What one side writes to ask for a release or to answer it the other side takes.
pub fn releases_are_read_back()
    ensures rlrq { rlrq_of (release_octets RLRQ) ≡ Ok tt }
    ensures rlre { rlre_of (release_octets RLRE) ≡ Ok tt }
    ensures rlrq_spelled { (input : Piece) → input.octets ≡ release_octets RLRQ
        → IsRelease RLRQ input }
    ensures rlre_spelled { (input : Piece) → input.octets ≡ release_octets RLRE
        → IsRelease RLRE input }
{}

/// What is written has exactly the fields that it says, and no spelling of these fields is shorter.
pub fn written_apdus_are_minimal()
    ensures aarq { (context : ℕ) (pdu : List ℕ) → context < 2 ^ 32
        → length (aarq_content context pdu) < 2 ^ 32
        → IsPlainAarq (aarq_octets context pdu) context pdu }
    ensures aare { (context : ℕ) (pdu : List ℕ) → context < 2 ^ 32
        → length (aare_content context pdu) < 2 ^ 32
        → IsPlainAare (aare_octets context pdu) context pdu }
    ensures rlrq { IsPlainRelease RLRQ (release_octets RLRQ) }
    ensures rlre { IsPlainRelease RLRE (release_octets RLRE) }
    ensures shortest_aarq { (octets : List ℕ) (context : ℕ) (pdu : List ℕ) → IsBytes octets
        → IsPlainAarq octets context pdu
        → length (aarq_octets context pdu) ≤ length octets }
    ensures shortest_aare { (octets : List ℕ) (context : ℕ) (pdu : List ℕ) → IsBytes octets
        → IsPlainAare octets context pdu
        → length (aare_octets context pdu) ≤ length octets }
    ensures shortest_release { (tag : ℕ) (octets : List ℕ) → IsBytes octets
        → IsPlainRelease tag octets → length (release_octets tag) ≤ length octets }
{}

/// An APDU carries one value at most, and is refused for one cause, and never both.
pub fn an_apdu_is_read_in_one_way()
    ensures aarq { (input p q : Piece) → IsAarq input p → IsAarq input q → p ≡ q }
    ensures aare { (input p q : Piece) → IsAare input p → IsAare input q → p ≡ q }
    ensures aarq_cause { (input : Piece) (f g : AcFault) → IsBytes input.octets
        → IsAarqRefused input f → IsAarqRefused input g → f ≡ g }
    ensures aare_cause { (input : Piece) (f g : AcFault) → IsBytes input.octets
        → IsAareRefused input f → IsAareRefused input g → f ≡ g }
    ensures aarq_not_both { (input p : Piece) (f : AcFault) → IsBytes input.octets → IsAarq input p
        → IsAarqRefused input f → ⊥ }
    ensures aare_not_both { (input p : Piece) (f : AcFault) → IsBytes input.octets → IsAare input p
        → IsAareRefused input f → ⊥ }
{}

/// A PDU of at most 4294967000 octets can be written.
pub fn short_pdus_fit()
    ensures aarq { (context : ℕ) (pdu : List ℕ) → length pdu ≤ 4294967000
        → length (aarq_content context pdu) < 2 ^ 32 }
    ensures aare { (context : ℕ) (pdu : List ℕ) → length pdu ≤ 4294967000
        → length (aare_content context pdu) < 2 ^ 32 }
{}
