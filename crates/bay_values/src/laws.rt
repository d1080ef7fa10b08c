//! The setting groups of a configuration fit the values of its attributes. The function runs nothing: its contract is a law.

ghost use Rattle.std.specs.Prelude.{◌≡◌, ℕ, Bool, List, Ok, true};
ghost use Rattle.sv_base.specs.declared.config.Config.{Config};
ghost use Rattle.sv_base.specs.declared.value.Value.{Value};
ghost use Rattle.bay_model.specs.NamedLines.{domains};
ghost use Rattle.bay_model.specs.declared.step.Setting.{Setting};
ghost use Rattle.object_model.specs.Fits.{is_sound};
ghost use Rattle.value_store.specs.Stored.{Stored};
ghost use Rattle.setting_groups.specs.Frames.{AreHeldOnce, ArePut};
ghost use Rattle.setting_groups.specs.Grouped.{Grouped, Settled, copy_answer, with_value};
ghost use Rattle.setting_groups.specs.Loaded.{active_settings};
ghost use Rattle.setting_groups.specs.Opened.{opened};
ghost use Rattle.bay_config.specs.Servable.{IsServable};
ghost use Rattle.bay_values.specs.Changed.{AreTyped};
ghost use Rattle.bay_values.specs.Held.{AreGrouped, AreHeld, IsSoundCell};
ghost use Rattle.bay_values.specs.Loaded.{AreLoadable};

/// The configured setting groups of a configuration that a bay serves are its own, and all that they hold is of the types of their
/// attributes and sound. Such groups give their attributes values of these types, and take those that the process and clients write.
pub fn groups_fit_values()
    ensures opened { (c : Config) → IsServable c → AreGrouped c (opened c (domains c)) }
    ensures loadable { (c : Config) (stored : List Stored) (s : Grouped) → IsServable c
        → AreHeld c stored → AreGrouped c s → AreLoadable stored s }
    ensures typed { (c : Config) (stored : List Stored) (s : Grouped) (d : ℕ) → IsServable c
        → AreHeld c stored → AreGrouped c s
        → AreTyped c (active_settings d s) }
    ensures put { (c : Config) (stored : List Stored) (s : Grouped) (settings : List Setting)
        → IsServable c → AreHeld c stored → AreGrouped c s
        → AreTyped c settings → ArePut s settings }
    ensures held { (c : Config) (stored : List Stored) (s : Grouped) (settings : List Setting)
        → IsServable c → AreHeld c stored → AreGrouped c s
        → AreTyped c settings → AreHeldOnce IsSoundCell s settings }
    ensures copied { (t : Settled) (v : Value) (is_held : Bool) → copy_answer is_held t v ≡ Ok tt
        → is_sound v ≡ true → IsSoundCell (with_value v t.copy) }
{}
