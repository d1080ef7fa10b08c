//! All that the program does.

ghost use Rattle.std.specs.Prelude.{◌≡◌, ◌≤◌, ◌↔◌, ℕ, IfSome};
ghost use Rattle.std.specs.Io.KnownBytes.{Appends};
ghost use Rattle.sv_io.specs.Causes.{Rose};
ghost use Rattle.sv_io.specs.Taken.{TakesAtMost};
ghost use Rattle.record_outcome.specs.Histories.{lines_of, history_of};
ghost use Rattle.record_outcome.specs.Written.{WritesHistory};
ghost use Rattle.replay_run.specs.Checked.{IsChecked, IsOfCheck, Checks, ChecksFront};
ghost use Rattle.replay_run.specs.Tool.{IsReplay, IsCheck, IsGen, IsLoad, IsCommand};
ghost use Rattle.replay_run.specs.Loaded.{WritesSummary};
ghost use Rattle.replay_run.specs.Writing.{IsOfWriting};
ghost use Rattle.made_records.specs.Texts.{made_record};
ghost use Rattle.record_outcome.specs.Judgements.{IsJudgement, IsRefusal, IsOfReplay, Answers};
ghost use Rattle.record_outcome.specs.Grammar.{IsNoRecord};
ghost use Rattle.record_session.specs.Fronts.{WritesFront};

use crate::check::check;
use crate::load::load;
use crate::made::{asked_for, generate};
use command_line::is_word;
use record_outcome::status::Status;
use record_session::replay::replay_record;
use std::alloc::Global;
use sv_io::{Sink, Source};

/// Does all that the program does. With the word `replay` it reads a record from the source, and writes the answers to its
/// lines to the sink; with the word `check` it reads a configuration, and writes what it counts in it; with `gen`, a seed
/// and a count it writes the record that they make, and with `load` what the history of that record comes to.
pub fn tool<S: Source, K: Sink>(
    alloc: Global,
    words: &[String],
    source: &mut S,
    sink: &mut K,
) -> Status
    // Words exactly where the words are those of no command.
    ensures words { (result ≡ Status.Words) ↔ (IsCommand words.now → ⊥) }

    // Every status of the record, and the answers to its lines, by the record's octets.
    ensures told { IsReplay words.now → IsJudgement result
        → IfSome (S.left source.old) (λ b. Answers b result (K.taken sink.old) (K.taken sink.new)) }

    // Up to where the reading stops the sink took the text of the record's history, whose steps are accepted; then `end`, exactly at Ok.
    ensures history { IsReplay words.now → IsJudgement result
        → IfSome (S.left source.old) (λ b. WritesHistory b result (K.taken sink.old)
        (K.taken sink.new)) }
    ensures replays { IsReplay words.now → IsOfReplay result }

    // A record of the grammar within the limits is not refused.
    ensures whole { IsReplay words.now → IsRefusal result → IfSome (S.left source.old) IsNoRecord }

    // Whatever the status, the sink took a front of the answers to the octets that were taken from the source: of the text of their
    // history, up to where the reading of them stops.
    ensures front { IsReplay words.now → WritesFront (S.left source.old) (S.left source.new)
        (K.taken sink.old) (K.taken sink.new) }

    // The counts of a configuration, or its first refused line, by the configuration's octets.
    ensures checked { IsCheck words.now → IsChecked result
        → IfSome (S.left source.old) (λ b. Checks b result (K.taken sink.old) (K.taken sink.new)) }
    ensures checks { IsCheck words.now → IsOfCheck result }

    // Whatever the status, a front of these counts.
    ensures counted { IsCheck words.now
        → IfSome (S.left source.old) (λ b. ChecksFront b (K.taken sink.old) (K.taken sink.new)) }

    // The record of the seed with n drawn lines; nothing is read.
    ensures generated { (seed : ℕ) → (count : ℕ) → IsGen words.now seed count → result ≡ Status.Ok
        → Appends (K.taken sink.old) (K.taken sink.new) (made_record seed count) }
    ensures generates { (seed : ℕ) → (count : ℕ) → IsGen words.now seed count → IsOfWriting result
        × (source.new ≡ source.old) }

    // How many steps, reports and marked reports the history of that record has; nothing is read.
    ensures loaded { (seed : ℕ) → (count : ℕ) → IsLoad words.now seed count → result ≡ Status.Ok
        → WritesSummary (history_of (lines_of (made_record seed count))) (K.taken sink.old)
        (K.taken sink.new) }
    ensures loads { (seed : ℕ) → (count : ℕ) → IsLoad words.now seed count → IsOfWriting result
        × (source.new ≡ source.old) }

    // At most 67108865 octets are taken from the source; with other words source and sink are left alone.
    ensures taken { TakesAtMost 67108865 (S.left source.old) (S.left source.new) }
    ensures idle { (IsCommand words.now → ⊥) → (source.new ≡ source.old) × (sink.new ≡ sink.old) }

    // Faults have their causes.
    ensures read { result ≡ Status.ReadFault → Rose (S.faults source.old) (S.faults source.new) }
    ensures write { result ≡ Status.WriteFault → Rose (K.faults sink.old) (K.faults sink.new) }
    ensures later { (S.faults source.old ≤ S.faults source.new)
        × (K.faults sink.old ≤ K.faults sink.new) }
{
    if is_word(words, "replay") {
        return replay_record(alloc, source, sink);
    }
    if is_word(words, "check") {
        return check(alloc, source, sink);
    }
    if let Some(asked) = asked_for(words, "gen") {
        return generate(alloc, asked, sink);
    }
    match asked_for(words, "load") {
        Some(asked) => load(alloc, asked, sink),
        None => Status::Words,
    }
}
