//! What the lines of a configuration name (IEC 61850-8-1, the names of data attributes, of control blocks and of controls).
#![tactic(auto)]

mod attributes;
mod index;
mod lines;
mod named;
mod references;

pub use attributes::Attributes;
pub use index::index_of;
pub use lines::{Line, domains, ordered_lines};
pub use named::{Item, Named};
pub use references::{block_references, control_references};
