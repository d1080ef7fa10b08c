//! What is promised of what is written: nothing that says the same is shorter.

ghost use Rattle.std.specs.Prelude.{◌≡◌, ℕ, ◌<◌, ◌≤◌, ◌^◌, List, [], ◌∷◌, length, Option, IfSome};
ghost use Rattle.ber_write.specs.Minimal.{CanBeTag};
ghost use Rattle.sv_base.specs.Depth.{depth, HasNoOther};
ghost use Rattle.sv_base.specs.Seen.{seen_of};
ghost use Rattle.sv_base.specs.declared.value.Value.{Value};
ghost use Rattle.mms_data.specs.Writable.{SeenHasFractions, SeenIsOfTypes};
ghost use Rattle.mms_initiate.specs.declared.initiate.Initiate.{Initiate};
ghost use Rattle.mms_initiate.specs.InitiateOctets.{accepted, proposed, answer_services};
ghost use Rattle.mms_initiate.specs.InitiateOctets.{request_services, initiate_answer};
ghost use Rattle.mms_initiate.specs.InitiateOctets.{initiate_request};
ghost use Rattle.mms_pdu.specs.AskingOctets.{read_request, write_request, conclude_request};
ghost use Rattle.mms_elements.specs.Reports.{report_octets};
ghost use Rattle.mms_pdu.specs.ReplyOctets.{answer_octets, error_octets, reject_octets};
ghost use Rattle.mms_pdu.specs.ReplyOctets.{concluded_octets};
ghost use Rattle.codec_laws.specs.Said.{holds, nothing, IsMinimal, initiate_says, read_says};
ghost use Rattle.codec_laws.specs.Said.{write_says, answer_says, error_says, reject_says};
ghost use Rattle.codec_laws.specs.Said.{report_says};
ghost use Rattle.mms_elements.specs.declared.tags.TheConstants.{INITIATE_REQUEST};
ghost use Rattle.mms_elements.specs.declared.tags.TheConstants.{INITIATE_RESPONSE};
ghost use Rattle.mms_elements.specs.declared.tags.TheConstants.{CONCLUDE_REQUEST};
ghost use Rattle.mms_elements.specs.declared.tags.TheConstants.{CONCLUDE_RESPONSE};

/// Each PDU that is written has exactly the elements that it says, and no spelling of these elements has fewer octets
/// (ITU-T X.690, 8.1 and 8.3).
pub fn written_pdus_are_minimal()
    ensures initiate_request { (size : ℕ) → size ≤ 65000
        → IsMinimal (initiate_request size) (initiate_says INITIATE_REQUEST
        (proposed size) request_services) }
    ensures initiate_answer { (asked : Initiate)
        → IsMinimal (initiate_answer asked) (initiate_says INITIATE_RESPONSE
        (accepted asked) answer_services) }
    ensures read { (invoke : ℕ) (d i : List ℕ) → invoke < 2 ^ 32
        → length (read_request invoke d i) < 2 ^ 32
        → IsMinimal (read_request invoke d i) (read_says invoke d i) }
    ensures write { (invoke : ℕ) (d i : List ℕ) (v : Value) → invoke < 2 ^ 32 → HasNoOther v
        → depth v ≤ 10 → SeenHasFractions (seen_of v)
        → SeenIsOfTypes (seen_of v)
        → length (write_request invoke d i v) < 2 ^ 32
        → IsMinimal (write_request invoke d i v) (write_says invoke d i (seen_of v)) }
    ensures conclude { IsMinimal conclude_request (holds CONCLUDE_REQUEST [] nothing) }
    ensures answer { (invoke tag : ℕ) (body : List ℕ) → invoke < 2 ^ 32 → CanBeTag tag
        → length (answer_octets invoke tag body) < 2 ^ 32
        → IsMinimal (answer_octets invoke tag body) (answer_says invoke tag body) }
    ensures error { (invoke class code : ℕ) → invoke < 2 ^ 32 → class < 256 → code < 256
        → IsMinimal (error_octets invoke class code) (error_says invoke class code) }
    ensures reject { (invoke : Option ℕ) (refusal : ℕ) → IfSome invoke (λ n. n < 2 ^ 32)
        → IsMinimal (reject_octets invoke refusal) (reject_says invoke refusal) }
    ensures report { (names results : List ℕ) → length (report_octets names results) < 2 ^ 32
        → IsMinimal (report_octets names results) (report_says names results) }
    ensures concluded { IsMinimal concluded_octets (holds CONCLUDE_RESPONSE [] nothing) }
{}
