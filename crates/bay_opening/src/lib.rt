//! What a bay of a configuration begins with: its values, setting groups, data sets, controls and report blocks as they are configured
//! (IEC 61850-7-2), and the memory that its steps need.
#![tactic(auto)]

mod blocks;
mod opening;
mod rooms;

pub use blocks::MOST_MEMBERS;
pub use opening::{Made, parts_made};
pub use rooms::Rooms;
