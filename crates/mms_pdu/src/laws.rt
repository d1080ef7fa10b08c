//! What is promised of what a client asks: each input asks one thing.

ghost use Rattle.std.specs.Prelude.{◌≡◌, ◌⊎◌, List, ℕ};
ghost use Rattle.ber_grammar.specs.Octets.{IsBytes};
ghost use Rattle.sv_base.specs.Tree.{Seen};
ghost use Rattle.mms_elements.specs.declared.fault.PduFault.{PduFault};
ghost use Rattle.mms_pdu.specs.Request.{Request, IsRequest, IsRequestRefused};

/// Each input asks one thing, or is refused for one cause, and never both.
pub fn each_input_asks_one_thing()
    ensures answered { (input : List ℕ) → IsBytes input
        → ((x : Request (List ℕ) Seen) × IsRequest input x)
        ⊎ ((f : PduFault) × IsRequestRefused input f) }
    ensures unique { (input : List ℕ) (x y : Request (List ℕ) Seen) → IsBytes input
        → IsRequest input x → IsRequest input y → x ≡ y }
    ensures one_cause { (input : List ℕ) (f g : PduFault) → IsBytes input → IsRequestRefused input f
        → IsRequestRefused input g → f ≡ g }
    ensures not_both { (input : List ℕ) (x : Request (List ℕ) Seen) (f : PduFault) → IsBytes input
        → IsRequest input x → IsRequestRefused input f → ⊥ }
{}
