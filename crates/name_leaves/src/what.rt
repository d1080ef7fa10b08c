//! What stands at a name.

use bay_model::{Comp, SettingComp};
use sv_base::Call;

/// What stands at a name: an attribute, a component of a report block or of a domain's setting group block, a part of a
/// control's command, its SBO, one of its commands, or a structure.
#[derive(Clone, Copy)]
pub enum What {
    Attribute(u32),
    Component(u32, Comp),
    Setting(u32, SettingComp),
    Withheld,
    Selecting(u32),
    Calling(u32, Call),
    Structure,
}
