//! The session layer (ISO 8327-1) and the presentation layer (ISO 8823-1) of a connection, without segmentation.
#![tactic(auto)]

// SPDUs, their parameters, and what is written.
pub mod codes;
mod parameters;
mod spdu;
mod writing;

// PPDUs: user data, contexts, CP and CPA.
mod contexts;
mod pdv;
mod presentation;

// Why octets are refused, and what is promised of all.
mod fault;
mod laws;

// Reading.
pub use contexts::Contexts;
pub use fault::SpFault;
pub use pdv::read_data;
pub use presentation::{Cp, read_ac, read_cp};
pub use spdu::{Spdu, read_dn, read_spdu};

// Writing.
pub use writing::{write_ac, write_cn, write_cpa, write_data, write_dn, write_fn};

// Laws.
pub use laws::{
    a_connection_is_read_back, a_release_is_read_back, an_answer_fits, data_are_read_back,
    each_input_is_read_in_one_way, short_ones_fit, user_data_are_minimal,
};
