//! The first line that is refused, and its kind, by the format and by the reading.

ghost use Rattle.std.specs.Prelude.{◌≡◌, ◌⊎◌, ◌↔◌, List, ℕ, [], ◌∷◌, ◌++◌, length, Err};
ghost use Rattle.sv_base.specs.declared.config.Config.{Config};
ghost use Rattle.cfg_lines.specs.declared.line.Line.{Line};
ghost use Rattle.cfg_parser.specs.declared.fault.Kind.{Kind};
ghost use Rattle.cfg_parser.specs.declared.fault.CfgFault.TheVariants.{Refused};
ghost use Rattle.cfg_parser.specs.Kinds.{number_of};
ghost use Rattle.cfg_parser.specs.Judging.{line_at};
ghost use Rattle.cfg_parser.specs.Looking.{config_at};
ghost use Rattle.cfg_grammar.specs.Texts.{AreLines, SpellsConfig};
ghost use Rattle.cfg_grammar.specs.Follows.{IsLine};
ghost use Rattle.cfg_laws.specs.Kinds.{word, order, long, many};
ghost use Rattle.cfg_laws.specs.Lines.{IsRefusedLine};
ghost use Rattle.cfg_laws.specs.Texts.{HasNoNewline, IsRefused};

/// After other lines a line is refused for a kind exactly where the format refuses it for that kind.
pub fn lines_are_refused_as_the_format_has_them()
    ensures kinds { (before : List Line) (text : List ℕ) (kind : Kind)
        → (line_at before text ≡ Err kind) ↔ IsRefusedLine before text (number_of kind) }
    ensures either { (front : List ℕ) (before : List Line) (text : List ℕ) → AreLines front before
        → ((line : Line) × IsLine before text line)
        ⊎ ((kind : Kind) × IsRefusedLine before text (number_of kind)) }
    ensures not_both { (before : List Line) (text : List ℕ) (line : Line) (kind : Kind)
        → IsLine before text line
        → IsRefusedLine before text (number_of kind) → ⊥ }
{}

/// After 20000 lines a further line is refused, as Many where it is not too long, has a form and may stand there. Octets that
/// no newline ends are no line: after 20000 lines too they are refused as Order.
pub fn a_configuration_has_at_most_20000_lines()
    ensures line { (front last rest : List ℕ) (before : List Line) → AreLines front before
        → length before ≡ 20000 → HasNoNewline last → (kind : ℕ)
        × IsRefused (front ++ (last ++ 10 ∷ rest)) 20001 kind
        × ((kind ≡ long) ⊎ ((kind ≡ word) ⊎ ((kind ≡ order) ⊎ (kind ≡ many)))) }
    ensures octets { (front rest : List ℕ) (before : List Line) → AreLines front before
        → length before ≡ 20000 → HasNoNewline rest → (rest ≡ [] → ⊥)
        → IsRefused (front ++ rest) 20001 order }
{}

/// A text is refused at a line and for a kind exactly where the format has this line as the first that is refused, and this
/// kind as the first that has a cause there.
pub fn texts_are_refused_as_the_format_has_them()
    ensures { (text : List ℕ) (line : ℕ) (kind : Kind) → (config_at text ≡ Err (Refused line kind))
        ↔ IsRefused text line (number_of kind) }
{}

/// Each text spells a configuration or is refused, never both, and it is refused at one line and for one kind alone.
pub fn a_text_is_a_configuration_or_refused_once()
    ensures either { (text : List ℕ) → ((config : Config) × SpellsConfig text config)
        ⊎ ((line : ℕ) × (kind : Kind) × IsRefused text line (number_of kind)) }
    ensures not_both { (text : List ℕ) (config : Config) (line : ℕ) (kind : Kind)
        → SpellsConfig text config → IsRefused text line (number_of kind) → ⊥ }
    ensures once { (text : List ℕ) (line other : ℕ) (kind cause : Kind)
        → IsRefused text line (number_of kind)
        → IsRefused text other (number_of cause) → (line ≡ other) × (kind ≡ cause) }
{}
