//! The refusals of a configuration as its format has them, without a function that reads; and that its reader refuses so.
#![tactic(auto)]

mod laws;

pub use laws::{
    a_configuration_has_at_most_20000_lines, a_text_is_a_configuration_or_refused_once,
    lines_are_refused_as_the_format_has_them, texts_are_refused_as_the_format_has_them,
};
