//! Which configurations of texts can be served.

ghost use Rattle.std.specs.Prelude.{◌≡◌, ℕ, List, Ok};
ghost use Rattle.sv_base.specs.declared.config.Config.{Config};
ghost use Rattle.cfg_parser.specs.Looking.{config_at};
ghost use Rattle.bay_config.specs.Servable.{IsServable};

/// A configuration that is read from a text can be served by a bay.
pub fn texts_are_served()
    ensures { (text : List ℕ) (c : Config) → config_at text ≡ Ok c → IsServable c }
{}
