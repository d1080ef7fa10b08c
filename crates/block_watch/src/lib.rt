//! Which report blocks the process touches by their data sets, and when they have something due (IEC 61850-7-2, DATA-SET, BRCB
//! attributes BufTm and IntgPd).
#![tactic(auto)]

mod dues;
mod watch;

pub use dues::{Dues, has_come};
pub use watch::{Watch, set_of};
