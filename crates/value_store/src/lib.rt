//! The values of a server's attributes (IEC 61850-7-2, DataAttribute; GetDataValues and SetDataValues).
#![tactic(auto)]

mod fault;
mod laws;
mod members;
mod octets;
mod opening;
mod store;

// the attributes, and what comes of setting one
pub use fault::SetFault;
pub use store::{Changed, Store};

// their laws
pub use laws::{
    a_write_stands, members_are_no_longer, members_are_whole_values, opened_as_configured,
    settings_stand, values_stand,
};
