//! The store stands for each history. The functions run nothing: each contract is a law.

ghost use Rattle.sv_base.specs.declared.config.Config.{Config};
ghost use Rattle.bay_model.specs.Attributes.{attributes};
ghost use Rattle.bay_model.specs.Lookups.{attr_of};
ghost use Rattle.bay_model.specs.Named.{configured_model};
ghost use Rattle.value_store.specs.Opened.{HasDomains, is_writable, opened};
ghost use Rattle.std.specs.Prelude.{◌≡◌, ◌<◌, ◌≤◌, ◌^◌, true, [], ◌∷◌, ℕ, List, map, length};
ghost use Rattle.std.specs.Prelude.{slice_set, unwrap_or};
ghost use Rattle.sv_base.specs.declared.value.Value.{Value};
ghost use Rattle.bay_model.specs.declared.step.Setting.{Setting};
ghost use Rattle.sv_base.specs.Data.{data_of};
ghost use Rattle.sv_base.specs.Fields.{shape_of};
ghost use Rattle.sv_base.specs.declared.numbers.AttrId.{AttrId};
ghost use Rattle.sv_base.specs.declared.types.TypeOf.{TypeOf};
ghost use Rattle.sv_base.specs.Kinds.{kind_of, is_kind, is_in_range};
ghost use Rattle.bay_model.specs.Model.{Model, Tree};
ghost use Rattle.bay_model.specs.Places.{largest};
ghost use Rattle.bay_rooms.specs.Slots.{IsSettable};
ghost use Rattle.bay_model.specs.Points.{Deed, Past, Point, valued, put};
ghost use Rattle.bay_model.specs.Singles.{arrival};
ghost use Rattle.bay_model.specs.Values.{gives, whole};
ghost use Rattle.value_store.specs.Leaves.{AreLeaves};
ghost use Rattle.value_store.specs.Members.{member_octets};
ghost use Rattle.value_store.specs.Stored.{Stored, AreStored, attribute, with_value};
ghost use Rattle.value_store.specs.Wholes.{Stands, HasForm, tree_attrs, AreSettable, stored_after};

/// A store that is opened stands for the empty history: each attribute of the configuration has the value, the kind and
/// the right of clients to write it that the model of the bay gives it.
pub fn opened_as_configured()
    ensures count { (c : Config) → HasDomains c → length (opened c) ≡ length (attributes c) }
    ensures stands { (c : Config) → HasDomains c → Stands (opened c) (configured_model c) [] }
    ensures kinds { (c : Config) (x : ℕ) → HasDomains c → x < length (attributes c)
        → (attribute (opened c) x).held.kind ≡ (attr_of (configured_model c) x).kind }
    ensures writable { (c : Config) (x : ℕ) → HasDomains c → x < length (attributes c)
        → (attribute (opened c) x).is_writable ≡ is_writable
        (attr_of (configured_model c) x).access }
{}

/// In a store that stands for a history the Data of a member is that of its node's whole value there, as the model of the
/// bay has it, where the member's type and attributes are those of the node.
pub fn members_are_whole_values()
    ensures { (all : List Stored) (c : Model) (past : Past) (t : Tree) (kind : TypeOf)
        (attrs : List AttrId)
        → Stands all c past → AreStored all attrs → HasForm t (shape_of kind)
        → map (λ (x : AttrId). x.0) attrs ≡ tree_attrs t
        → member_octets all kind attrs ≡ data_of (whole c past t) }
{}

/// A store that stands for a past stands for the arrival of the next point as it is; from there, where each attribute comes to have
/// the value that the deed gives it, and the others keep theirs, for the point itself; and as it is for a further arrival.
pub fn values_stand()
    ensures arrival { (all : List Stored) (c : Model) (m n : ℕ) (before : Past)
        → Stands all c before → Stands all c (arrival n m ∷ before) }
    ensures deed { (all new : List Stored) (c : Model) (m n : ℕ) (d : Deed) (before : Past)
        → Stands all c (arrival n m ∷ before) → length new ≡ length all
        → ((x : ℕ) → x < length all → (attribute new x).held.value ≡ unwrap_or (gives c x d before)
        (attribute all x).held.value)
        → Stands new c (record { moment = m; step = n; deed = d } ∷ before) }
    ensures again { (all : List Stored) (c : Model) (m n : ℕ) (q : Point) (before : Past)
        → Stands all c (q ∷ before)
        → Stands all c (arrival n m ∷ q ∷ before) }
{}

/// A store that stands for a history stands for the longer one after a process step's attributes were set in their order.
pub fn settings_stand()
    ensures { (all : List Stored) (c : Model) (before : Past) (p : Point) (settings : List Setting)
        → Stands all c before → AreSettable all settings → p.deed ≡ valued settings
        → Stands (stored_after all settings) c (p ∷ before) }
{}

/// And so it does after a client's accepted write of one attribute.
pub fn a_write_stands()
    ensures { (all : List Stored) (c : Model) (before : Past) (p : Point) (a x : ℕ) (v : Value)
        → Stands all c before → x < length all → p.deed ≡ put a x v
        → Stands (slice_set all x (with_value v (attribute all x))) c (p ∷ before) }
{}

/// The Data of a value of a type, and of a member, is no longer than the largest of the type, whose length is one that
/// four octets spell.
pub fn members_are_no_longer()
    ensures leaf { (kind : TypeOf) (v : Value) → IsSettable kind → is_kind (kind_of kind) v ≡ true
        → is_in_range (kind_of kind) v ≡ true → largest kind < 2 ^ 32
        → length (data_of v) ≤ largest kind }
    ensures member { (all : List Stored) (kind : TypeOf) (attrs : List AttrId)
        → AreLeaves all (shape_of kind) attrs → largest kind < 2 ^ 32
        → length (member_octets all kind attrs) ≤ largest kind }
{}
