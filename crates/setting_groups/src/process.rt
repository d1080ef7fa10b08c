//! What the process sets of the SG attributes goes into their active groups (IEC 61850-7-2, SETTING-GROUP-CONTROL-BLOCK).

use crate::groups::Groups;
use bay_model::Setting;
use sv_base::AttrId;

impl Groups {
    ghost use Rattle.std.specs.Prelude.{◌≡◌, ◌<◌, ℕ, Some, length};
    ghost use Rattle.std.specs.List.{All};
    ghost use Rattle.setting_groups.specs.Frames.{ArePut, IsPut};
    ghost use Rattle.setting_groups.specs.Grouped.{after_setting, after_values, place_in};

    /// The place of an attribute among the SG attributes; none exactly where it is none.
    fn place(&self, attr: AttrId) -> Option<usize>
        ensures place { result ≡ place_in attr.0 self.now.settings }
        ensures within { (k : ℕ) → result ≡ Some k → k < length self.now.settings }
    {
        for at in 0..self.settings.len() {
            if attr.0 == self.settings[at].attr().0 {
                return Some(at);
            }
        }
        None
    }

    /// The process sets an attribute: where it is an SG attribute the active group of its domain takes the value. It takes no memory.
    fn set(&mut self, setting: &Setting)
        requires { (k : ℕ) → place_in setting.now.attr.0 self.old.settings ≡ Some k
            → IsPut self.old setting.now k }
        ensures { self.new ≡ after_setting setting.now self.old }
    {
        if let Some(at) = self.place(setting.attr) {
            self.put(at, &setting.value);
        }
    }

    /// The process sets attributes, in order. It takes no memory.
    pub fn set_all(&mut self, settings: &[Setting])
        requires { ArePut self.old settings.now }
        ensures { self.new ≡ after_values settings.now self.old }
    {
        for setting in settings {
            self.set(setting);
        }
    }
}
