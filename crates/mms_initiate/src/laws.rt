//! What is promised of initiates: each input says one, and what is written is read back.

ghost use Rattle.std.specs.Prelude.{◌≡◌, ◌≤◌, ◌⊎◌, List, ℕ, Ok};
ghost use Rattle.ber_grammar.specs.Octets.{IsBytes};
ghost use Rattle.mms_elements.specs.declared.fault.PduFault.{PduFault};
ghost use Rattle.mms_elements.specs.declared.tags.TheConstants.{INITIATE_REQUEST};
ghost use Rattle.mms_elements.specs.declared.tags.TheConstants.{INITIATE_RESPONSE};
ghost use Rattle.mms_initiate.specs.declared.initiate.Initiate.{Initiate};
ghost use Rattle.mms_initiate.specs.Initiate.{IsAccepted, IsInitiate, IsInitiateRefused};
ghost use Rattle.mms_initiate.specs.InitiateReading.{initiate_at};
ghost use Rattle.mms_initiate.specs.InitiateOctets.{accepted, proposed, initiate_answer};
ghost use Rattle.mms_initiate.specs.InitiateOctets.{initiate_request};

/// Each input says one initiate that is accepted, by the tag of its PDU, or is refused for one cause, and never both.
pub fn each_initiate_says_one_thing()
    ensures answered { (tag : ℕ) (input : List ℕ) → IsBytes input
        → ((i : Initiate) × IsAccepted tag input i)
        ⊎ ((f : PduFault) × IsInitiateRefused tag input f) }
    ensures unique { (tag : ℕ) (input : List ℕ) (i j : Initiate) → IsAccepted tag input i
        → IsAccepted tag input j → i ≡ j }
    ensures one_cause { (tag : ℕ) (input : List ℕ) (f g : PduFault) → IsBytes input
        → IsInitiateRefused tag input f → IsInitiateRefused tag input g → f ≡ g }
    ensures not_both { (tag : ℕ) (input : List ℕ) (i : Initiate) (f : PduFault) → IsBytes input
        → IsAccepted tag input i → IsInitiateRefused tag input f → ⊥ }
{}

/// The initiate and its answer are read back by the other side, and an input spells one initiate.
pub fn initiates_are_read_back()
    ensures answer { (asked : Initiate) → 1024 ≤ asked.size
        → IsInitiate INITIATE_RESPONSE (initiate_answer asked) (accepted asked) }
    ensures answer_again { (asked : Initiate) → 1024 ≤ asked.size
        → initiate_at INITIATE_RESPONSE (initiate_answer asked) ≡ Ok (accepted asked) }
    ensures request { (size : ℕ) → 1024 ≤ size → size ≤ 65000
        → IsInitiate INITIATE_REQUEST (initiate_request size) (proposed size) }
    ensures request_again { (size : ℕ) → 1024 ≤ size → size ≤ 65000
        → initiate_at INITIATE_REQUEST (initiate_request size) ≡ Ok (proposed size) }
    ensures one { (tag : ℕ) (input : List ℕ) (i j : Initiate) → IsInitiate tag input i
        → IsInitiate tag input j → i ≡ j }
{}
