//! What is promised of the PDUs of what a bay answers, as laws: functions that run nothing.

ghost use Rattle.std.specs.Prelude.{◌≡◌, ℕ, ◌≤◌, ◌<◌, ◌^◌, List, length, map, Result};
ghost use Rattle.std.specs.List.{AllByRecursion};
ghost use Rattle.sv_base.specs.declared.value.Value.{Value};
ghost use Rattle.mms_elements.specs.declared.tags.TheConstants.{READ, WRITE};
ghost use Rattle.mms_pdu.specs.ObjectName.{domain};
ghost use Rattle.mms_pdu.specs.Access.{Access, variables, named};
ghost use Rattle.mms_pdu.specs.AskingOctets.{AreVisible};
ghost use Rattle.bay_model.specs.declared.request.Target.{Target};
ghost use Rattle.bay_model.specs.declared.request.SetName.{SetName};
ghost use Rattle.bay_model.specs.declared.reply.Asked.{Asked};
ghost use Rattle.bay_model.specs.declared.reply.Asked.TheVariants.{No, Vars, Set};
ghost use Rattle.bay_answers.specs.RepliesVariables.{asked_octets};
ghost use Rattle.bay_answers.specs.RepliesContents.{results_octets, read_content, written_content};
ghost use Rattle.bay_answers.specs.Replies.{names_response, AreAsManyAsFit};
ghost use Rattle.bay_answers.specs.RepliesTold.{TellsResult, TellsCode, AreTold, TellsAsked};
ghost use Rattle.bay_answers.specs.RepliesTold.{target_told, IsVisibleTarget};
ghost use Rattle.bay_answers.specs.RepliesTold.{IsResultOfTypes, IsCode, IsReadBack, IsShort};

/// The response of GetNameList has the first names, and all of them unless a further one doesn't fit; moreFollows says
/// exactly where there is one.
pub fn names_are_as_many_as_fit()
    ensures { (size invoke : ℕ) (names : List (List ℕ)) → 1024 ≤ size
        → AreAsManyAsFit size invoke names (names_response size invoke names) }
{}

/// The responses of Write and of Read are read by a client, and say it of each variable, in order, what came of it. Where
/// what was read is written back it is told as it was asked for, but for alternate access.
pub fn responses_are_read_back()
    ensures read { (invoke : ℕ) (results : List (Result Value ℕ))
        → IsShort invoke READ (read_content No results) → AllByRecursion IsResultOfTypes results
        → IsReadBack invoke READ (read_content No results)
        × AreTold TellsResult (results_octets results) results }
    ensures specified { (invoke : ℕ) (asked : Asked) (access : Access (List ℕ))
        (results : List (Result Value ℕ))
        → IsShort invoke READ (read_content asked results) → TellsAsked (asked_octets asked) access
        → AllByRecursion IsResultOfTypes results
        → IsReadBack invoke READ (read_content asked results)
        × AreTold TellsResult (results_octets results) results }
    ensures variables { (targets : List Target) → AllByRecursion IsVisibleTarget targets
        → length (asked_octets (Vars targets)) < 2 ^ 32
        → TellsAsked (asked_octets (Vars targets)) (variables (map target_told targets)) }
    ensures set { (name : SetName) → AreVisible name.domain → AreVisible name.item
        → length (asked_octets (Set name)) < 2 ^ 32
        → TellsAsked (asked_octets (Set name)) (named (domain name.domain name.item)) }
    ensures written { (invoke : ℕ) (codes : List (Result (Unit {0}) ℕ))
        → IsShort invoke WRITE (written_content codes) → AllByRecursion IsCode codes
        → IsReadBack invoke WRITE (written_content codes)
        × AreTold TellsCode (written_content codes) codes }
{}
