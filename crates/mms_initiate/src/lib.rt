//! How an association begins: the initiate of a client and its answer (ISO 9506-2, Initiate-RequestPDU and
//! Initiate-ResponsePDU; encoded by ITU-T X.690), read and written.
//!
//! The server reads an initiate by [`read_initiate`] and accepts it by [`write_initiate_answer`]; the client proposes by
//! [`write_initiate_request`] and reads the answer by [`read_initiate_answer`]. The laws are functions that run nothing.
#![tactic(auto)]

mod initiate;
mod initiate_writing;
mod laws;

pub use initiate::{Initiate, read_initiate, read_initiate_answer};
pub use initiate_writing::{write_initiate_answer, write_initiate_request};
pub use laws::{each_initiate_says_one_thing, initiates_are_read_back};
