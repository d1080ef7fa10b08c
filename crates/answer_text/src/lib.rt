//! The text of answers: the lines in which an association is answered, in its shape.
#![tactic(auto)]

// the lines of an answer
mod acts;
mod answer;
mod pdus;
mod report;

pub use answer::lines_of;
