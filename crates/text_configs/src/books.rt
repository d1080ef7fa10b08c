//! What the book of data sets asks of a configuration holds of each that a text spells. The function runs nothing: its
//! contract is a law.

ghost use Rattle.std.specs.Prelude.{◌≡◌, ◌≤◌, ℕ, List, [], Ok, length};
ghost use Rattle.sv_base.specs.declared.config.Config.{Config};
ghost use Rattle.bay_model.specs.declared.tables.SetRow.{SetRow};
ghost use Rattle.bay_model.specs.Named.{configured_model};
ghost use Rattle.cfg_parser.specs.Looking.{config_at};
ghost use Rattle.data_sets.specs.Books.{opened};
ghost use Rattle.data_sets.specs.Opening.{AreNamed, AreSets, after_names};
ghost use Rattle.data_sets.specs.Standing.{Stands, dat_sets};

/// Of a configuration that is read from a text the references of the data sets differ, no domain has a `/`, and each DatSet
/// is empty or names a set; it has at most 32 blocks. So the book that is opened with its sets, in which each DatSet then
/// names its set, stands for the history without a step.
pub fn texts_have_books()
    ensures named { (text : List ℕ) (c : Config) → config_at text ≡ Ok c
        → AreNamed (configured_model c) }
    ensures few { (text : List ℕ) (c : Config) → config_at text ≡ Ok c
        → length (configured_model c).blocks ≤ 32 }
    ensures opened { (text : List ℕ) (c : Config) (rows : List SetRow) → config_at text ≡ Ok c
        → AreSets rows (configured_model c).sets
        → Stands (after_names (dat_sets (configured_model c) []) (opened rows))
        (configured_model c) [] }
{}
