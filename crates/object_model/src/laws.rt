//! The nodes of a configuration: their rows beside its model, and their names. What the clauses say stands in `specs/`.

ghost use Rattle.std.specs.Prelude.{◌≡◌, ◌<◌, ℕ, Some, length, slice_get};
ghost use Rattle.sv_base.specs.declared.config.Config.{Config};
ghost use Rattle.bay_model.specs.declared.tables.NodeRow.{NodeRow};
ghost use Rattle.bay_model.specs.Lookups.{node_of};
ghost use Rattle.bay_model.specs.Named.{nodes, configured_model};
ghost use Rattle.name_tree.specs.Nodes.{node_rows};
ghost use Rattle.object_model.specs.Rows.{IsRowOf};
ghost use Rattle.object_model.specs.Tables.{node_named};
ghost use denote.Param.Send.{IsSend, IsSync};
ghost use Rattle.object_model.specs.contracts.model.Model.{the_row as model_row};

/// There is a row for each node of the model, with its number, its type and its attributes; it allows the node as a member of
/// a data set, with at most 500 octets, exactly where the model does.
pub fn rows_are_the_nodes()
    ensures count { (c : Config) → length (node_rows c) ≡ length (nodes c) }
    ensures rows { (c : Config) (n : ℕ) (r : NodeRow) → slice_get (node_rows c) n ≡ Some r
        → IsRowOf c n r }
{}

/// The domain and the item of a node, as `domain_of` and `item_of` give them, are the name of that node and of no other, for
/// every node of every configuration: `resolve` finds it by them.
pub fn names_find_their_nodes()
    ensures { (c : Config) (n : ℕ) → n < length (nodes c)
        → node_named (nodes c) (node_of (configured_model c) n).domain
        (node_of (configured_model c) n).item ≡ Some n }
{}

/// A model may go to another thread, and several threads may read it.
pub fn models_cross_threads()
    ensures sent { IsSend model_row }
    ensures shared { IsSync model_row }
{}
