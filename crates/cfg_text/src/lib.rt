//! The configuration of a server as a text: it is read and written, and both are held against the format.
#![tactic(auto)]

mod laws;
mod writing;

// the lines of a configuration, and what they make
pub use cfg_lines::{Line, Place};
pub use cfg_parser::{read_config, read_lines};
pub use cfg_reading::Reading;

// the text of a configuration
pub use writing::write_config;

// why a text is no configuration
pub use cfg_parser::{CfgFault, Kind};

// what the format, the reading and the writing have to do with each other
pub use laws::{
    lines_are_read_as_the_format_has_them, texts_are_read_as_the_format_has_them,
    written_configurations_read_as_the_same,
};
