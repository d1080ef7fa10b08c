//! The lists that a reply has: names, results of reads, outcomes of writes, nodes.

use sv_base::{AccessResult, List, NodeId, Octs};

/// Names, ascending by their octets.
pub type Names = List<Octs>;

/// What was read: for each variable its value, or a code of access (ISO 9506-2, DataAccessError).
pub type Results = List<AccessResult>;

/// What came of the writes of a request, in order: accepted, or a code of access (ISO 9506-2, DataAccessError).
pub type Codes = List<Result<(), u8>>;

/// The nodes that are the members of a data set, in order.
pub type Nodes = List<NodeId>;
