//! A race of the scripts of a plan: its actors, and what it comes to, the record that they made with its answers, or the line that
//! met a full queue.
#![tactic(auto)]

mod casting;
mod settling;

pub use casting::cast_scripts;
pub use settling::settle;
