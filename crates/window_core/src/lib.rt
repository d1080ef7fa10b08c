//! The open group of a report block: its events are gathered under its buffer time, in memory that is made at once
//! (IEC 61850-7-2, BRCB attribute BufTm).
#![tactic(auto)]

mod laws;
mod slots;
mod window;

// the window
pub use window::Window;

// its laws
pub use laws::{settings_stand_still, windows_gather, windows_stand};
