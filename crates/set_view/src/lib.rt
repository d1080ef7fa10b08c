//! A data set by the numbers of its nodes, and the shapes of its members (IEC 61850-7-2, DATA-SET).
#![tactic(auto)]

mod view;

pub use view::SetView;
