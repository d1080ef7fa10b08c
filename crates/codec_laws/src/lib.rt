//! Laws of the codecs: no octets that say the same as a written PDU are fewer (ISO 9506-2, MMSpdu), and the tags, codes and object
//! identifiers of the tables are the standards'. The functions run nothing.
#![tactic(auto)]

// how short a PDU is, and replies that are cut
mod cut;
mod minimal;

pub use cut::cut_replies_are_answered_alike;
pub use minimal::written_pdus_are_minimal;

// the numbers of tags and codes
mod answers;
mod associations;
mod controls;
mod data;
mod object_ids;
mod pdus;
mod services;
mod session;
mod transport;

pub use answers::tags_of_answers_are_the_standards;
pub use associations::tags_of_apdus_are_the_standards;
pub use controls::codes_of_controls_are_the_standards;
pub use data::tags_of_data_are_the_standards;
pub use object_ids::object_identifiers_are_the_standards;
pub use pdus::tags_of_pdus_are_the_standards;
pub use services::codes_of_services_are_the_standards;
pub use session::codes_of_sessions_are_the_standards;
pub use transport::codes_of_tpdus_are_the_standards;
