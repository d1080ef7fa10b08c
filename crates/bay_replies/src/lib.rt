//! Replies to requests that write nothing, and reads of variables before their turn (ISO 9506-2, the confirmed services), by what a
//! bay lends: its model, its values, its setting groups, its report blocks and its data sets.
#![tactic(auto)]

// what is lent, and the reply
mod replies;

// names, variables and data sets
mod copies;
mod names;
mod reads;
mod sets;

pub use copies::{copy_targets, set_name};

// what leaves read as, and how many octets a result takes
mod leaves;
mod sizes;
mod values;

pub use sizes::{are_too_long, left_behind, names_within, result_len};
pub use values::owned;

// laws
mod laws;

pub use laws::{nodes_are_plain, nothing_comes_of_reads, opened_books_are_served};
pub use reads::Read;
pub use replies::{Replies, asked_variables};
