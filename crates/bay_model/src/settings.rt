//! Which attributes belong to a setting group.

ghost use Rattle.std.specs.Prelude.{◌≡◌};
ghost use Rattle.bay_model.specs.NamedLines.{is_setting as is_setting_line};

use sv_base::AttrDef;

/// Whether an attribute belongs to a setting group (IEC 61850-7-2, functional constraint SG).
pub fn is_setting(attr: &AttrDef) -> bool
    ensures { result ≡ is_setting_line attr.now }
{
    attr.fc.as_slice() == b"SG".as_slice()
}
