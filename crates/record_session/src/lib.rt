//! The replay of a record: its octets are read in pieces and cut into lines, whose steps are applied to a bay.
#![tactic(auto)]

// all of it: pieces from a source, and the answers to a sink
pub mod replay;

// what has been read: pieces, and the lines that end in them
mod reader;
mod session;

// the parts of a record, one after another: the first line, the configuration, the steps
mod playing;
mod stage;
mod starting;
