//! Lists of names and reads that are longer than a PDU (ISO 9506-2, GetNameList and Read).

ghost use Rattle.std.specs.Prelude.{◌≡◌, ◌<◌, ◌^◌, ℕ, List, All, Result, length};
ghost use Rattle.sv_base.specs.declared.config.Config.{Config};
ghost use Rattle.sv_base.specs.declared.value.Value.{Value};
ghost use Rattle.mms_elements.specs.declared.tags.TheConstants.{READ};
ghost use Rattle.bay_model.specs.declared.reply.Asked.{Asked};
ghost use Rattle.bay_model.specs.Services.{read_reply};
ghost use Rattle.bay_model.specs.Sizes.{within};
ghost use Rattle.bay_answers.specs.RepliesContents.{read_content};
ghost use Rattle.bay_answers.specs.Replies.{names_response, reply_octets, response};

/// A bay keeps of a list of names those that a PDU of this size can hold, and the one after them; and of a read whose values
/// alone are longer than a PDU, nothing but the error. The response is that of the whole list, and of all that was read.
pub fn cut_replies_are_answered_alike()
    ensures names { (size invoke : ℕ) (names : List (List ℕ)) → size < 2 ^ 32
        → All (λ n. length n < 2 ^ 32) names
        → names_response size invoke (within size names) ≡ names_response size invoke names }
    ensures reads { (c : Config) (size invoke : ℕ) (asked : Asked) (results : List (Result Value ℕ))
        → reply_octets c size invoke (read_reply size asked results) ≡ response size invoke READ
        (read_content asked results) }
{}
