//! What the opening of setting groups asks of a configuration holds of each that a text spells. The function runs nothing: its
//! contract is a law.

ghost use Rattle.std.specs.Prelude.{◌≡◌, ℕ, List, [], Ok};
ghost use Rattle.sv_base.specs.declared.config.Config.{Config};
ghost use Rattle.bay_model.specs.Named.{configured_model};
ghost use Rattle.bay_model.specs.NamedLines.{domains};
ghost use Rattle.cfg_parser.specs.Looking.{config_at};
ghost use Rattle.setting_groups.specs.Opened.{opened, IsGrouped};
ghost use Rattle.setting_groups.specs.Standing.{Stands};

/// A configuration that is read from a text is grouped: each of its attributes has values of its type, and under SG one for each
/// group of its domain, of which one is active at first. So its setting groups, when they are opened, stand for the history
/// without a step.
pub fn texts_have_groups()
    ensures grouped { (text : List ℕ) (c : Config) → config_at text ≡ Ok c → IsGrouped c }
    ensures opened { (text : List ℕ) (c : Config) → config_at text ≡ Ok c
        → Stands (opened c (domains c)) (configured_model c) [] }
{}
