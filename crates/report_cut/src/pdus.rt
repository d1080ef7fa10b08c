//! Rows of PDUs.

use sv_base::{List, Octs};

/// The PDUs of a report, in order. Contracts see them as the list of the rows of octets.
pub type Pdus = List<Octs>;
