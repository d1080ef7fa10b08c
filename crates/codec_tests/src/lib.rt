//! Tests of what no program here shows: BER at its edges, and the client's side of MMS and of a connection.
#![tactic(auto)]

// BER (ITU-T X.690)
#[cfg(test)]
mod ber;

// PDUs of MMS (ISO 9506-2), asked and read by a client
#[cfg(test)]
mod client;

// a connection, on the side that calls
#[cfg(test)]
mod caller;
#[cfg(test)]
mod written;
