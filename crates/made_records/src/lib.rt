//! Records that are made from a seed: what the process and one client of a small bay do, by numbers that look like chance.
#![tactic(auto)]

// what stands before the drawn lines
mod opening;

pub use opening::{CONFIGURATION, ENABLING_LINE, OPENING_LINE};

// the lines that a seed draws
mod draw;
mod line;

pub use draw::Draw;
pub use line::{MadeLine, push_line, push_octets};

// the record, in pieces
mod made_record;

pub use made_record::MadeRecord;
