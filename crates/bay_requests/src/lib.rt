//! Requests of clients as the bay has them (ISO 9506-2; IEC 61850-8-1, the mapping of its services).
//!
//! `to_request` gives the bay's request of a request's octets. It needs the names of the configuration alone, so it runs
//! beside the bay and not in it.
#![tactic(auto)]

mod names;
mod requests;
mod services;
mod values;

// the bay's request of a request's octets
pub use requests::{read_request, to_rejection, to_request};
