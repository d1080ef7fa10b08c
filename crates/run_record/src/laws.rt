//! What the format of a record's lines, their reading and their writing have to do with each other.

ghost use Rattle.std.specs.Prelude.{◌≡◌, ◌≤◌, ◌↔◌, List, ℕ, length, Ok, Err};
ghost use Rattle.run_record.specs.declared.line.RecLine.{RecLine};
ghost use Rattle.run_record.specs.Grammar.{Spells};
ghost use Rattle.run_record.specs.Judging.{line_at};
ghost use Rattle.run_record.specs.Refused.{IsLong, IsUnformed, IsUnnumbered};
ghost use Rattle.run_record.specs.declared.fault.Kind.TheVariants.{Long, Word, Number};
ghost use Rattle.run_record.specs.Spelled.{spelled};

/// A text is read as a line exactly where it spells it.
pub fn lines_are_read_as_the_format_has_them()
    ensures { (text : List ℕ) (line : RecLine) → (line_at text ≡ Ok line) ↔ Spells text line }
{}

/// A text is refused as each kind exactly for that kind's cause, where there is none that counts before it.
pub fn lines_are_refused_as_the_format_has_them()
    ensures long { (text : List ℕ) → (line_at text ≡ Err Long) ↔ IsLong text }
    ensures word { (text : List ℕ) → (line_at text ≡ Err Word) ↔ IsUnformed text }
    ensures number { (text : List ℕ) → (line_at text ≡ Err Number) ↔ IsUnnumbered text }
{}

/// What is written of a line that a text spells reads as that line, and no text that spells it is shorter.
pub fn written_lines_read_as_the_same()
    ensures again { (text : List ℕ) (line : RecLine) → Spells text line
        → line_at (spelled line) ≡ Ok line }
    ensures shortest { (text : List ℕ) (line : RecLine) → Spells text line
        → length (spelled line) ≤ length text }
{}
