//! Laws over whole histories, which nothing below needs: what waits for an association, by what was put for it and what Takes gave,
//! and by its own steps; that it is of no account which actor made a step of the process; what an EntryID is refused by. The functions
//! run nothing.
#![tactic(auto)]

mod entry_ids;
mod own_steps;
mod process_steps;
mod waiting;

pub use entry_ids::entry_ids_are_named_or_refused;
pub use own_steps::own_steps_fill_a_queue;
pub use process_steps::who_made_a_step_of_the_process_is_of_no_account;
pub use waiting::what_waits_was_put_and_not_given;
