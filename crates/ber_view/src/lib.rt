//! BER elements and the contents of the plain kinds (ITU-T X.690), read without copying.
//!
//! [`first`] reads one element and [`parts`] a row of them, [`fields`] and [`only`] the fields of a content; [`int`],
//! [`uint`], [`bits`] and [`text`] read the content of one. Whatever is given back is a slice of the input. Tags and lengths may be spelled longer than needed.
#![tactic(auto)]

mod bit_view;
mod content;
mod element;
mod elements;
mod field;

pub use ber_grammar::BerFault;

// One element, and a row of them.
pub use element::{Tlv, first};
pub use elements::{Elements, parts};

// The fields of a content, and one of them.
pub use field::{fields, first_of, first_with, only, only_with, tagged, whole};

// What a content spells.
pub use bit_view::{BitView, bits};
pub use content::{int, text, uint};
