//! Laws of reads. What the clauses say stands in `specs/`.

ghost use Rattle.std.specs.Prelude.{◌≡◌, ℕ, Result, map};
ghost use Rattle.sv_base.specs.Fields.{shape_of};
ghost use Rattle.sv_base.specs.declared.types.TypeOf.{TypeOf};
ghost use Rattle.sv_base.specs.declared.value.Value.{Value};
ghost use Rattle.bay_model.specs.Model.{Model, Leaf, Tree};
ghost use Rattle.bay_model.specs.Points.{Past};
ghost use Rattle.bay_model.specs.Reads.{read_tree, read_leaf};
ghost use Rattle.name_leaves.specs.Leaves.{leaves};
ghost use Rattle.node_reads.specs.Reading.{HasShape, read_by, leaf_read, all_or_first, typed};

/// A node reads as its type has it with the values of its leaves, or the code of the first leaf that is refused, whatever the
/// values of the leaves are.
pub fn reads_are_of_leaves()
    ensures { (f : Leaf → Result Value ℕ) (t : Tree) (k : TypeOf) → HasShape t (shape_of k)
        → read_by (leaf_read f) t ≡ typed k (all_or_first (map (leaf_read f) (leaves t))) }
{}

/// With what the leaves of a bay read as at a point of its history, it is what the bay's nodes read as.
pub fn reads_are_the_models()
    ensures { (c : Model) (past : Past) (t : Tree) → read_by (leaf_read (read_leaf c past)) t
        ≡ read_tree c past t }
{}
