//! What a rehearsal's input comes to.

use object_model::Model;
use script_plans::Script;

/// A configuration, by its model and by its lines, and the scripts by the numbers of their actors: 1 to 16 are associations, and
/// 17 to 32 scripts of the process in their order.
#[derive(Drop)]
pub struct Plan {
    pub model: Model,
    /// The lines of the configuration, with their newlines.
    pub text: Vec<u8>,
    /// 33 places, for no actor 0.
    pub slots: Vec<Option<Script>>,
    /// How many scripts have begun.
    pub count: u32,
    /// How many of these are the process's.
    pub processes: u32,
}
