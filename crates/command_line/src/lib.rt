//! The command lines of the programs: their words, the texts that they show, and how they end.
#![tactic(auto)]

// the words, and what they ask
pub mod words;

// what a program is called and shows, and its end
pub mod program;

pub use program::{Program, show};
pub use words::{is_word, words_of};

// the programs
mod bay_server;
mod bay_tool;

pub use bay_server::BAY_SERVER;
pub use bay_tool::BAY_TOOL;
