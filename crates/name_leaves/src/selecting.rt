//! How a control is selected.

ghost use Rattle.std.specs.Prelude.{◌≡◌};
ghost use Rattle.bay_model.specs.Generated.{is_selected as is_selected_model};

use sv_base::{CtlDef, ctl_models};

/// Whether a control is selected before it operates (IEC 61850-7-2, ctlModel).
pub fn is_selected(control: &CtlDef) -> bool
    ensures { result ≡ is_selected_model control.now }
{
    control.model == ctl_models::SBO_NORMAL || control.model == ctl_models::SBO_ENHANCED
}
