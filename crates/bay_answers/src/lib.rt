//! Answers of the bay as MMS (ISO 9506-2; IEC 61850-8-1, the mapping of its services).
//!
//! `to_bytes` gives the PDUs of what the bay answers. It needs the names of the configuration alone, so it runs beside the
//! bay and not in it.
#![tactic(auto)]

mod control_errors;
mod control_pdus;
mod replies;
mod replies_contents;
mod replies_elements;
mod replies_laws;
mod replies_names;
mod replies_variables;
mod tags;

// the PDUs of what the bay answers
pub use replies::to_bytes;
pub use replies_laws::{names_are_as_many_as_fit, responses_are_read_back};
