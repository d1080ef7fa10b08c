//! What the members of data sets are read from.

use bay_model::NodeRow;
use data_sets::SetBook;
use value_store::Store;

/// The values of the attributes, the data sets that are there, and the rows of their nodes, lent.
#[derive(Drop)]
pub struct Source<'a> {
    pub store: &'a Store,
    pub book: &'a SetBook,
    pub rows: &'a [NodeRow],
}
