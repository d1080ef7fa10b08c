//! What the format of a configuration, its reading and its writing have to do with each other.

ghost use Rattle.std.specs.Prelude.{◌≡◌, ◌≤◌, ◌↔◌, List, ℕ, length, Ok};
ghost use Rattle.sv_base.specs.declared.config.Config.{Config};
ghost use Rattle.cfg_lines.specs.declared.line.Line.{Line};
ghost use Rattle.cfg_parser.specs.Judging.{line_at};
ghost use Rattle.cfg_grammar.specs.Follows.{IsLine};
ghost use Rattle.cfg_parser.specs.Looking.{config_at};
ghost use Rattle.cfg_text.specs.Numbered.{ReadsAs};
ghost use Rattle.cfg_grammar.specs.Texts.{AreLines, SpellsConfig};
ghost use Rattle.cfg_writing.specs.Written.{written};

/// After lines of the format a line is read as what it says exactly where it is a line of the format that may stand there.
pub fn lines_are_read_as_the_format_has_them()
    ensures read { (before : List Line) (text : List ℕ) (line : Line) → IsLine before text line
        → line_at before text ≡ Ok line }
    ensures told { (front : List ℕ) (before : List Line) (text : List ℕ) (line : Line)
        → AreLines front before → line_at before text ≡ Ok line
        → IsLine before text line }
{}

/// A text is read as a configuration exactly where it spells it.
pub fn texts_are_read_as_the_format_has_them()
    ensures { (text : List ℕ) (config : Config) → (config_at text ≡ Ok config)
        ↔ SpellsConfig text config }
{}

/// What is written of a configuration that a text spells reads as the same configuration up to the numbers of lines, and no
/// text that spells it is shorter.
pub fn written_configurations_read_as_the_same()
    ensures again { (text : List ℕ) (config : Config) → SpellsConfig text config
        → ReadsAs (written config) config }
    ensures shortest { (text : List ℕ) (config : Config) → SpellsConfig text config
        → length (written config) ≤ length text }
{}
