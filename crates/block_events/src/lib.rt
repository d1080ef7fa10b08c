//! What changes, time and losses make of the report blocks of a bay.
#![tactic(auto)]

mod events;
mod losses;
mod source;
mod time;

pub use events::event_all;
pub use losses::lose_all;
pub use source::Source;
pub use time::pass_due;
