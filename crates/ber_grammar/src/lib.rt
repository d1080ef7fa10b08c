//! The grammar of BER, the basic encoding rules of ITU-T X.690: which octets are an element, a row of elements,
//! and the content of each kind.
//!
//! The definitions stand in `specs/`, and have no code. The functions here run nothing: each contract is a law.
#![tactic(auto)]

mod fault;
mod laws;

// Why octets are refused.
pub use fault::BerFault;

// What is promised of the grammar.
pub use laws::{
    each_content_has_one_row_of_fields, each_content_spells_one_value,
    each_input_begins_one_element, each_input_is_one_row, no_spelling_begins_another, rows_join,
};
