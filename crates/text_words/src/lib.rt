//! The words of a line and what they spell: numbers, names, types and values, as they stand in configurations and records.
#![tactic(auto)]

mod lines;
mod names;
mod numbers;
mod octets;
mod spelling;
mod types;
mod values;
mod words;

// a line, its octets and its words
pub use lines::split_line;
pub use octets::{are_printable, is_skipped};
pub use words::{after_front, parts_of, put_parts};

// numbers
pub use numbers::{int, number, number_between};

// names and references
pub use names::{dollars, is_fc, is_member, is_name, is_path, item_of};

// types and trigger options
pub use types::{Flags, flags_of, type_of};

// values
pub use values::{
    all_binary, all_graphic, bits, empty, hex_octets, text, truth, truth_values, value, values_of,
};

// how each is spelled
pub use spelling::{
    flags_word, push_bits, push_number, push_text, push_type, push_values, push_word,
};
