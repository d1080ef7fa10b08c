//! What a configuration's lines name is what its model has.

ghost use Rattle.std.specs.Prelude.{◌≡◌, ◌&&◌, ℕ, List, true};
ghost use Rattle.text_words.specs.Names.{is_member};
ghost use Rattle.cfg_lines.specs.declared.line.Line.{Line};
ghost use Rattle.cfg_lines.specs.Keys.{is_among};
ghost use Rattle.cfg_lines.specs.Claims.{sets};
ghost use Rattle.cfg_lines.specs.Nodes.{is_node, is_member_node};
ghost use Rattle.cfg_lines.specs.Configs.{config_of};
ghost use Rattle.cfg_grammar.specs.Texts.{AreLines};
ghost use Rattle.cfg_parser.specs.Looking.{config_at};
ghost use Rattle.bay_model.specs.Named.{configured_model};
ghost use Rattle.name_trees.specs.ByModel.{has_set, has_node, may_have, config_by};

/// A reference is that of a data set of the lines exactly where it is that of a data set of the model.
pub fn sets_are_those_of_the_model()
    ensures { (told : List Line) (reference : List ℕ)
        → is_among (sets told) reference ≡ has_set (configured_model (config_of told)) reference }
{}

/// A reference that a member may have is that of a node of the lines exactly where it is that of a node of the model: for each
/// text whose lines are lines of the format, with its report control blocks, controls, setting groups and edited values.
pub fn nodes_are_those_of_the_model()
    ensures { (text : List ℕ) (told : List Line) (reference : List ℕ) → AreLines text told
        → is_member reference ≡ true
        → is_node told reference ≡ has_node (configured_model (config_of told)) reference }
{}

/// A reference that a member may have is that of a node of the lines, and of one that a data set may have, exactly where the
/// model has a node of that reference that it allows: no part of a control block or a control, no edited value, and Data of at
/// most 500 octets.
pub fn members_are_those_of_the_model()
    ensures { (text : List ℕ) (told : List Line) (reference : List ℕ) → AreLines text told
        → is_member reference ≡ true
        → (is_node told reference && is_member_node told reference) ≡ may_have
        (configured_model (config_of told)) reference }
{}

/// A text is read as a configuration, or its first refused line has the number and the kind, that its model says: what `brcb`
/// and `member` lines name is looked up among the data sets and the nodes of the model that the lines make.
pub fn configurations_are_read_by_the_model()
    ensures { (text : List ℕ) → config_at text ≡ config_by text }
{}
