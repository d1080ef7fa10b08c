//! The APDUs by which an association is made and released (ISO 8650-1, ITU-T X.227), as far as they carry MMS.
//!
//! [`read_aarq`], [`write_aare`], [`read_rlrq`] and [`write_rlre`] are the responder's; [`write_aarq`], [`read_aare`],
//! [`write_rlrq`] and [`read_rlre`] the caller's. Readers take no memory, and what they give back is a slice of the input.
#![tactic(auto)]

// The octets: tags, what is read and what is written.
mod codes;
mod reading;
mod writing;

// Why an APDU is refused, and what is promised of all.
mod fault;
mod laws;

// Reading.
pub use fault::AcFault;
pub use reading::{read_aare, read_aarq, read_rlre, read_rlrq};

// Writing.
pub use writing::{write_aare, write_aarq, write_rlre, write_rlrq};

// Laws.
pub use laws::{
    an_apdu_is_read_in_one_way, associations_are_read_as_spelled, associations_are_read_back,
    releases_are_read_back, short_pdus_fit, written_apdus_are_minimal,
};
