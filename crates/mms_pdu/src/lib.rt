//! MMS PDUs (ISO 9506-2, MMSpdu; encoded by ITU-T X.690), read without copying and written.
//!
//! After the initiate (`mms_initiate`) the server reads what is asked by [`request`], and sends answers, errors, rejects and
//! reports. The client asks by the other writers, and reads what comes by [`reply`]. The laws are functions that run nothing.
#![tactic(auto)]

mod access;
mod answer;
mod asking;
mod confirmed;
mod data_list;
mod error;
mod laws;
mod name_list;
mod number;
mod object_name;
mod read_back;
mod reading;
mod reject;
pub mod reject_reasons;
mod reply_view;
mod report;
mod results;
mod service;
mod variable;
mod variable_lists;

pub use mms_elements::PduFault;

// What is in a PDU.
pub use data_list::DataList;
pub use object_name::{NameList, NameView};
pub use variable::{VariableList, VariableView};

// What a client asks.
pub use asking::{write_conclude_request, write_read_request, write_write_request};
pub use reading::{RequestView, request};
pub use service::{ScopeView, ServiceView};

// What a server sends.
pub use answer::write_answer;
pub use error::write_error;
pub use reject::write_reject;
pub use reply_view::{ReplyView, reply};
pub use report::write_report;
pub use results::{read_result, write_result};

// What is promised of all of it.
pub use laws::each_input_asks_one_thing;
pub use read_back::{each_input_is_one_reply, replies_are_read_back, requests_are_read_back};
pub use results::each_answer_says_one_result;
