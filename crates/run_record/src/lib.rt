//! The lines of a record: the steps of a server's clients and of its process, as texts.
//!
//! A line is judged by its octets, its words and its numbers alone. Names, hexadecimal and values stay texts: what they name
//! and spell is a matter of the configuration.
#![tactic(auto)]

mod fault;
mod keyword;
mod laws;
mod line;
mod octets;
mod pairs;
mod reading;
mod view;
mod words;
mod writing;

// what a line says
pub use line::{OpenForm, RecLine};
pub use pairs::{Pair, Pairs};

// the same, with its words lent
pub use view::{LineView, PairView, PairsView};

// reading and writing
pub use reading::{is_long, read_line, view_line};
pub use writing::write_line;

// what the format and the reading have to do with each other
pub use laws::{
    lines_are_read_as_the_format_has_them, lines_are_refused_as_the_format_has_them,
    written_lines_read_as_the_same,
};

// why a line is refused
pub use fault::{Kind, RecFault};
