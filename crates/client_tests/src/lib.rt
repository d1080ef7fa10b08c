//! Tests of the client of a server of MMS against recorded servers.
#![tactic(auto)]

// a recorded server
#[cfg(test)]
mod octets;

// a client that asks it
#[cfg(test)]
mod asking;
#[cfg(test)]
mod faults;
