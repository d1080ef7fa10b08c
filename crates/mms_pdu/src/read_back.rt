//! What is promised of what is written: it is read back.

ghost use Rattle.std.specs.Prelude.{◌≡◌, ℕ, ◌<◌, ◌≤◌, ◌^◌, ◌⊎◌, false, List, [], ◌∷◌, length};
ghost use Rattle.std.specs.Prelude.{Option, IfSome};
ghost use Rattle.ber_grammar.specs.Octets.{IsBytes};
ghost use Rattle.ber_write.specs.Minimal.{CanBeTag};
ghost use Rattle.sv_base.specs.Depth.{depth, HasNoOther};
ghost use Rattle.sv_base.specs.Seen.{seen_of};
ghost use Rattle.sv_base.specs.declared.value.Value.{Value};
ghost use Rattle.mms_data.specs.Writable.{SeenHasFractions, SeenIsOfTypes};
ghost use Rattle.mms_elements.specs.declared.fault.PduFault.{PduFault};
ghost use Rattle.mms_pdu.specs.Service.{read, write_vars};
ghost use Rattle.mms_pdu.specs.Request.{confirmed, conclude, IsRequest};
ghost use Rattle.mms_pdu.specs.AskingOctets.{AreVisible, named_variable, read_request};
ghost use Rattle.mms_pdu.specs.AskingOctets.{write_request, conclude_request};
ghost use Rattle.mms_pdu.specs.Answer.{IsAnswerBody};
ghost use Rattle.mms_pdu.specs.Reply.{Reply, answer, error, reject, concluded, information};
ghost use Rattle.mms_pdu.specs.Reply.{IsReply, IsReplyRefused};
ghost use Rattle.mms_elements.specs.Reports.{report_octets, IsSpecificationElement, IsReport};
ghost use Rattle.mms_pdu.specs.ReplyOctets.{answer_octets, error_octets, reason_code};
ghost use Rattle.mms_pdu.specs.ReplyOctets.{reject_octets, CanBeRejected};
ghost use Rattle.mms_elements.specs.declared.tags.TheConstants.{CONCLUDE_RESPONSE};

/// What a client asks spells that request, which `request` gives back.
pub fn requests_are_read_back()
    ensures read { (invoke : ℕ) (d i : List ℕ) → invoke < 2 ^ 32 → AreVisible d → AreVisible i
        → length (read_request invoke d i) < 2 ^ 32
        → IsRequest (read_request invoke d i)
        (confirmed invoke (read (named_variable d i ∷ []) false)) }
    ensures write { (invoke : ℕ) (d i : List ℕ) (v : Value) → invoke < 2 ^ 32 → AreVisible d
        → AreVisible i → HasNoOther v → depth v ≤ 10
        → SeenHasFractions (seen_of v) → SeenIsOfTypes (seen_of v)
        → length (write_request invoke d i v) < 2 ^ 32 → IsRequest (write_request invoke d i v)
        (confirmed invoke (write_vars (named_variable d i ∷ []) (seen_of v ∷ []))) }
    ensures conclude { IsRequest conclude_request conclude }
{}

/// What a server sends spells that reply, which `reply` gives back; a report has the variables and the results that it was
/// given. The end of a conclude is `8C 00`.
pub fn replies_are_read_back()
    ensures answer { (invoke tag : ℕ) (body : List ℕ) → invoke < 2 ^ 32 → CanBeTag tag
        → IsAnswerBody tag body
        → length (answer_octets invoke tag body) < 2 ^ 32
        → IsReply (answer_octets invoke tag body) (answer invoke tag body) }
    ensures error { (invoke class code : ℕ) → invoke < 2 ^ 32 → class < 256 → code < 256
        → IsReply (error_octets invoke class code) (error invoke class code) }
    ensures reject { (invoke : Option ℕ) (refusal : ℕ) → IfSome invoke (λ n. n < 2 ^ 32)
        → CanBeRejected invoke refusal
        → IsReply (reject_octets invoke refusal) (reject invoke (reason_code refusal)) }
    ensures report { (names results : List ℕ) → IsSpecificationElement names
        → length (report_octets names results) < 2 ^ 32
        → IsReport (report_octets names results) names results
        × IsReply (report_octets names results) (information (report_octets names results)) }
    ensures concluded { IsReply (CONCLUDE_RESPONSE ∷ 0 ∷ []) concluded }
{}

/// Each input is one thing that a server sends, or is refused for one cause, and never both.
pub fn each_input_is_one_reply()
    ensures answered { (input : List ℕ) → IsBytes input → ((x : Reply (List ℕ)) × IsReply input x)
        ⊎ ((f : PduFault) × IsReplyRefused input f) }
    ensures unique { (input : List ℕ) (x y : Reply (List ℕ)) → IsBytes input → IsReply input x
        → IsReply input y → x ≡ y }
    ensures one_cause { (input : List ℕ) (f g : PduFault) → IsBytes input → IsReplyRefused input f
        → IsReplyRefused input g → f ≡ g }
    ensures not_both { (input : List ℕ) (x : Reply (List ℕ)) (f : PduFault) → IsBytes input
        → IsReply input x → IsReplyRefused input f → ⊥ }
{}
