//! A client of a server of MMS (ISO 9506-2; IEC 61850-8-1): it reads and writes variables over a link that it is lent at each
//! call, and is sent reports.
#![tactic(auto)]

// the client
mod client;

pub use client::Client;

// why it goes on no more
mod fault;

pub use fault::ClientFault;

// what it asks
mod reference;
mod requests;

pub use reference::{is_block, is_reference};

// what comes
mod association;
mod connecting;
mod incoming;
mod line;
mod link;
mod meaning;
mod reports;
mod stream;
