//! A script that is being read.

use crate::form::ScriptForm;
use crate::script::Script;
use script_lines::Party;
use sv_base::Moment;

/// A script that has begun: whose it is, the number of its actor, what its association is after its lines, and the moment of its
/// next step.
#[derive(Drop)]
pub struct Opened {
    pub party: Party,
    pub actor: u32,
    pub form: ScriptForm,
    pub moment: Moment,
    pub script: Script,
}
