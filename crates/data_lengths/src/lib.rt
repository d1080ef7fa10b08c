//! How many octets the Data of values has.
#![tactic(auto)]

mod measure;

pub use measure::{data_len, element_len, row_len, shortest, without_zeros};
