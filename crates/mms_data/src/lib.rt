//! MMS Data and types (ISO 9506-2, Data and TypeDescription; encoded by ITU-T X.690).
//!
//! [`read_data`] reads the one element that octets are, however long its lengths and numbers are spelled; [`write_data`]
//! adds the minimal spelling of a value, and [`write_type`] that of a type. [`view_data`] leaves Data where they are, and
//! takes no memory. The laws are functions that run nothing.
#![tactic(auto)]

mod content;
mod data_view;
mod fault;
mod laws;
mod reading;
pub mod tags;
mod type_writing;
mod writing;

// Data, read and in place.
pub use content::all_bits;
pub use data_view::{DataView, view_data};
pub use fault::DataFault;
pub use reading::read_data;

// Data and types, written.
pub use type_writing::write_type;
pub use writing::{stamp_octets, time_octets, write_data};

// What is promised of all of it.
pub use laws::{
    data_is_minimal, data_is_read_back, elements_are_read_as_octets_are, short_ones_fit,
    types_are_elements,
};
