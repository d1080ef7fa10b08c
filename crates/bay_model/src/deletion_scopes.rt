//! Which data sets a request to delete is about (ISO 9506-2, DeleteNamedVariableList-Request, scopeOfDelete).

/// Those that it names.
pub const SPECIFIC: u8 = 0;
