//! Reports as MMS PDUs (IEC 61850-8-1, mapping of the Report service; ISO 9506-2, InformationReport).
//!
//! [`cut`] gives the PDUs of a report: one where that fits the size, else segments, each with as many members as fit.
//! [`read_report`] gives what one such PDU says. The laws are functions that run nothing.
#![tactic(auto)]

mod contents;
mod cutting;
mod fault;
mod fields;
mod laws;
mod measure;
mod members;
mod part;
mod pdu;
mod pdus;
mod reading;
mod segment;
mod taking;
mod told;

// the PDUs of a report
pub use cutting::cut;
pub use pdus::Pdus;
pub use segment::Segment;

// what one PDU says
pub use fault::ReportFault;
pub use part::ReportPart;
pub use reading::read_report;

// what is promised of them
pub use laws::{
    each_pdu_tells_one_thing, inclusion_bits_tell, segments_are_full, segments_are_read_back,
    segments_are_reports,
};
