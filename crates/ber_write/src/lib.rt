//! BER elements (ITU-T X.690), written in their one minimal spelling after the octets that are there.
//!
//! The only error is out of memory, and then `out` is as it was. The caller sees to it that a tag is one that
//! `ber_view::first` can give, and that no content is above 4294967295 octets.
#![tactic(auto)]

mod bit_string;
mod element;
mod laws;
mod number;

// Elements.
pub use element::{add, enclosed, length_of, length_parts, put, put_head};

// Elements of numbers and of bit strings.
pub use bit_string::{bits_len, put_bits};
pub use number::{int_len, put_int, put_uint, uint_len, unsigned};

// What is promised of what is written.
pub use laws::{
    bit_strings_are_minimal, elements_are_minimal, elements_are_read_back, numbers_are_minimal,
};
