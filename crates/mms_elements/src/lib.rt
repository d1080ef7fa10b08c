//! What MMS PDUs are made of (ISO 9506-2, MMSpdu): the tags of their elements, numbers under a tag, and why octets are no PDU
//! that is expected. Reports are read and cut, associations begun and requests read on these alone.
#![tactic(auto)]

mod fault;
mod number;
pub mod tags;

pub use fault::PduFault;
pub use number::{number_of, numbered_of, octet_of};
