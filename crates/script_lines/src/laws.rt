//! What the reading of the lines among scripts has to do with their spelling.

ghost use Rattle.std.specs.Prelude.{◌≡◌, List, ℕ, Ok};
ghost use Rattle.script_lines.specs.declared.line.ScriptLine.{ScriptLine};
ghost use Rattle.script_lines.specs.Lines.{script_line_at};
ghost use Rattle.script_lines.specs.Grammar.{SpellsScript};

/// A text is read as a line exactly where it spells it.
pub fn script_lines_are_read_as_they_are_spelled()
    ensures read { (text : List ℕ) (line : ScriptLine) → SpellsScript text line
        → script_line_at text ≡ Ok line }
    ensures told { (text : List ℕ) (line : ScriptLine) → script_line_at text ≡ Ok line
        → SpellsScript text line }
{}
