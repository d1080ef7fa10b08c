//! What is promised of all SPDUs and PPDUs: each function here runs nothing, and its contract is a law.

ghost use Rattle.std.specs.Prelude.{◌≡◌, ℕ, ◌+◌, ◌*◌, ◌<◌, ◌≤◌, ◌^◌, Bool, true, List, [], ◌∷◌};
ghost use Rattle.std.specs.Prelude.{length, Some, Ok};
ghost use Rattle.ber_grammar.specs.Octets.{IsBytes};
ghost use Rattle.ber_grammar.specs.Place.{Piece};
ghost use Rattle.ber_grammar.specs.Steps.{IsLacking};
ghost use Rattle.session_pres.specs.declared.fault.SpFault.TheVariants as faults;
ghost use Rattle.session_pres.specs.OneWay.{IsOneWay};
ghost use Rattle.session_pres.specs.declared.codes.TheConstants.{FINISH, DISCONNECT, USER_DATA};
ghost use Rattle.session_pres.specs.Parameters.{IsLength};
ghost use Rattle.session_pres.specs.Units.{HasUser, IsUserRefused, IsSpdu, IsSpduRefused, connect};
ghost use Rattle.session_pres.specs.Units.{transfer, finish};
ghost use Rattle.session_pres.specs.UserData.{IsUserData};
ghost use Rattle.session_pres.specs.Presentation.{Request, IsCp, IsCpRefused, IsCpa, IsCpaRefused};
ghost use Rattle.session_pres.specs.Presentation.{IsAc, IsAcRefused};
ghost use Rattle.session_pres.specs.Written.{pdv_list, user_octets, field, data_spdu, release_spdu};
ghost use Rattle.session_pres.specs.Written.{length_field, accept_parameters, accept_spdu};
ghost use Rattle.session_pres.specs.Written.{IsOneElement};
ghost use Rattle.session_pres.specs.WrittenPpdu.{connect_parameters, connect_spdu, set_content};
ghost use Rattle.session_pres.specs.WrittenPpdu.{cpa_parameters, cpa_octets};
ghost use Rattle.session_pres.specs.Plain.{Asked, connects, spdu_from, cp_from};

/// The CONNECT that is written asks for the contexts 1 and 3, and brings its APDU; the ACCEPT that is written for it is
/// accepted, and brings its APDU.
pub fn a_connection_is_read_back()
    ensures connect { (input : Piece) (aarq : List ℕ) → IsOneElement aarq
        → length (connect_parameters aarq) ≤ 65535 → input.octets ≡ connect_spdu aarq
        → (cp : Piece) × (said : Request) × IsSpdu input (connect cp) × IsCp cp said
        × (said.acse ≡ 1) × (said.mms ≡ 3)
        × (said.list ≡ true ∷ true ∷ []) × (said.user.octets ≡ aarq) }
    ensures accept { (input : Piece) (aare : List ℕ) → IsOneElement aare
        → length (accept_parameters (cpa_octets (true ∷ true ∷ []) 1 aare)) ≤ 65535
        → input.octets ≡ accept_spdu (cpa_octets (true ∷ true ∷ []) 1 aare)
        → (user : Piece) × IsAc input user × (user.octets ≡ aare) }
{}

/// Data that are written bring their context and their PDU.
pub fn data_are_read_back()
    ensures { (input : Piece) (context : ℕ) (pdu : List ℕ) → context < 2 ^ 32 → IsOneElement pdu
        → length (pdv_list context pdu) < 2 ^ 32
        → input.octets ≡ data_spdu context pdu
        → (user value : Piece) × IsSpdu input (transfer user) × IsUserData user (context, value)
        × (value.octets ≡ pdu) }
{}

/// No user data that bring this context and this value are shorter than what is written, and neither is the length of a
/// parameter or an SPDU, which has one form.
pub fn user_data_are_minimal()
    ensures least { (input : Piece) (context : ℕ) (user : Piece) → IsBytes input.octets
        → IsUserData input (context, user)
        → length (user_octets context user.octets) ≤ length input.octets }
    ensures lengths { (octets : List ℕ) (n : ℕ) → IsBytes octets → IsLength octets n
        → octets ≡ length_field n }
{}

/// A FINISH and a DISCONNECT that are written bring their context and their APDU.
pub fn a_release_is_read_back()
    ensures finish { (input : Piece) (context : ℕ) (apdu : List ℕ) → context < 2 ^ 32
        → IsOneElement apdu
        → length (field USER_DATA (user_octets context apdu)) ≤ 65535
        → input.octets ≡ release_spdu FINISH context apdu
        → (user value : Piece) × IsSpdu input (finish (Some user))
        × IsUserData user (context, value) × (value.octets ≡ apdu) }
    ensures disconnect { (input : Piece) (context : ℕ) (apdu : List ℕ) → context < 2 ^ 32
        → IsOneElement apdu
        → length (field USER_DATA (user_octets context apdu)) ≤ 65535
        → input.octets ≡ release_spdu DISCONNECT context apdu
        → (user value : Piece) × HasUser DISCONNECT input (Some user)
        × IsUserData user (context, value) × (value.octets ≡ apdu) }
{}

/// An SPDU, a CP, a CPA, an ACCEPT with its CPA, user data and a DISCONNECT bring one thing each, or are refused for one
/// cause, and never both.
pub fn each_input_is_read_in_one_way()
    ensures spdu { (input : Piece) → IsOneWay (IsSpdu input) (IsSpduRefused input) }
    ensures disconnect { (input : Piece)
        → IsOneWay (HasUser DISCONNECT input) (IsUserRefused DISCONNECT input) }
    ensures cp { (input : Piece) → IsOneWay (IsCp input) (IsCpRefused input) }
    ensures cpa { (input : Piece) → IsOneWay (IsCpa input) (IsCpaRefused input) }
    ensures ac { (input : Piece) → IsOneWay (IsAc input) (IsAcRefused input) }
    ensures user_data { (input : Piece) → IsOneWay {Y = ℕ × Piece} (IsUserData input)
        (IsLacking faults.Pdv (IsUserData input)) }
{}

/// What is short can be written: each clause gives a writer's condition.
pub fn short_ones_fit()
    ensures transfer { (context : ℕ) (pdu : List ℕ) → context < 2 ^ 32 → length pdu + 64 ≤ 2 ^ 32
        → length (pdv_list context pdu) < 2 ^ 32 }
    ensures release { (context : ℕ) (apdu : List ℕ) → context < 2 ^ 32 → length apdu + 64 ≤ 65535
        → length (field USER_DATA (user_octets context apdu)) ≤ 65535 }
    ensures accept { (cpa : List ℕ) → length cpa + 16 ≤ 65535
        → length (accept_parameters cpa) ≤ 65535 }
    ensures connect { (aarq : List ℕ) → length aarq + 128 ≤ 65535
        → length (connect_parameters aarq) ≤ 65535 }
    ensures answer { (list : List Bool) (context : ℕ) (aare : List ℕ) → context < 2 ^ 32
        → 9 * length list + length aare + 64 ≤ 2 ^ 32
        → length (set_content (cpa_parameters list context aare)) < 2 ^ 32 }
    ensures answer_length { (list : List Bool) (context : ℕ) (aare : List ℕ) → context < 2 ^ 32
        → length (cpa_octets list context aare) ≤ 9 * length list + length aare + 64 }
{}

/// The answer to any CP that is no longer than a TSDU can be written, with an AARE of at most 16384 octets: each context
/// of the CP's list takes eight octets or more, its result nine if it is one of the two that are accepted, and else five.
pub fn an_answer_fits()
    ensures fits { (ppdu : List ℕ) (cp : Asked) (aare : List ℕ) → cp_from ppdu ≡ Ok cp
        → length ppdu ≤ 70000 → length aare ≤ 16384
        → (length (set_content (cpa_parameters cp.list cp.acse aare)) < 2 ^ 32)
        × (length (accept_parameters (cpa_octets cp.list cp.acse aare)) ≤ 65535) }
    ensures within { (input ppdu : List ℕ) → spdu_from input ≡ Ok (connects ppdu)
        → length ppdu ≤ length input }
{}
