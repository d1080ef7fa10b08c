//! What stands at the end of a name.

ghost use Rattle.std.specs.Prelude.{◌≡◌};
ghost use Rattle.std.specs.Option.{option_map};
ghost use Rattle.name_leaves.specs.Leaves.{leaf_code, own_leaf as own_leaf_of};
ghost use Rattle.name_leaves.specs.Seen.{role_seen};

use crate::what::What;
use bay_model::{Comp, SettingComp};
use sv_base::{AttrId, BlockNo};

/// What stands at the end of a name: an attribute, a component of a report block or of a domain's setting group block
/// (IEC 61850-7-2, BRCB and SGCB attributes), or what is never read (IEC 61850-8-1, functional constraint CO).
#[derive(Clone, Copy)]
pub enum Leaf {
    Attribute(AttrId),
    Component(BlockNo, Comp),
    Setting(u32, SettingComp),
    Withheld,
}

/// The leaf of a name without parts; none where it is a structure.
pub fn own_leaf(what: What) -> Option<Leaf>
    ensures { result ≡ option_map leaf_code (own_leaf_of (role_seen what)) }
{
    match what {
        What::Attribute(number) => Some(Leaf::Attribute(AttrId(number))),
        What::Component(number, comp) => Some(Leaf::Component(BlockNo(number), comp)),
        What::Setting(domain, comp) => Some(Leaf::Setting(domain, comp)),
        What::Withheld | What::Selecting(_) => Some(Leaf::Withheld),
        What::Calling(_, _) | What::Structure => None,
    }
}
