//! The format of a configuration as a relation: which texts spell a line, which line may stand after others, and which text
//! spells which configuration.
//!
//! The definitions stand in `specs/`, and have no code.
#![tactic(auto)]
