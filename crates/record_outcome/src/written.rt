//! Lines of a record that are written one after another.

ghost use Rattle.std.specs.Prelude.{◌≡◌, ◌∷◌, ◌++◌, List, ℕ, Ok};
ghost use Rattle.run_record.specs.declared.line.RecLine.{RecLine};
ghost use Rattle.run_record.specs.Grammar.{Spells};
ghost use Rattle.run_record.specs.Judging.{line_at};
ghost use Rattle.run_record.specs.Spelled.{spelled, line_text};
ghost use Rattle.record_outcome.specs.Records.{pieces};

/// What is written of a line that a text spells is the next line of its octets, whatever follows, and reads as that line.
pub fn written_lines_are_read_back()
    ensures next { (text : List ℕ) (line : RecLine) (rest : List ℕ) → Spells text line
        → pieces (line_text line ++ rest) ≡ spelled line ∷ pieces rest }
    ensures again { (text : List ℕ) (line : RecLine) → Spells text line
        → line_at (spelled line) ≡ Ok line }
{}
