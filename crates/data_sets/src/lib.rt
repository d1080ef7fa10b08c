//! The data sets that are there, configured ones and those that clients define (IEC 61850-7-2, DATA-SET; ISO 9506-2, named
//! variable lists).
#![tactic(auto)]

mod book;
mod laws;

// the sets by their numbers, their names and their references
pub use book::{DefineFault, Definition, DeleteFault, SetBook, is_reference};

// their laws
pub use laws::{
    books_are_bounded, books_stand, changes_are_answered, holds_are_uses, opened_books_stand,
    sets_are_found, sets_are_the_definition,
};
