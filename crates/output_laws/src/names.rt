//! How long the names of a configuration are. The function runs nothing: its contract is a law.

ghost use Rattle.std.specs.Prelude.{◌≡◌, ℕ, List, Ok};
ghost use Rattle.sv_base.specs.declared.config.Config.{Config};
ghost use Rattle.cfg_parser.specs.Looking.{config_at};
ghost use Rattle.output_laws.specs.Names.{HasShortNames};

/// In a configuration that is read from a text the references of blocks and of controls, and the RptIDs and DatSets that blocks begin
/// with, have at most 129 octets.
pub fn texts_have_short_names()
    ensures { (text : List ℕ) (c : Config) → config_at text ≡ Ok c → HasShortNames c }
{}
