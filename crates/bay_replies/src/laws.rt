//! Nothing comes of a request that writes nothing, and what such a request reads is there. The functions run nothing: their contracts
//! are laws.

ghost use Rattle.std.specs.Prelude.{◌≡◌, ◌≢◌, ◌<◌, ℕ, [], length, map};
ghost use Rattle.sv_base.specs.declared.config.Config.{Config};
ghost use Rattle.bay_model.specs.declared.request.Service.{Service};
ghost use Rattle.bay_model.specs.Attributes.{attributes};
ghost use Rattle.bay_model.specs.Lookups.{node_of};
ghost use Rattle.bay_model.specs.Named.{configured_model};
ghost use Rattle.bay_model.specs.Outcomes.{deed_of};
ghost use Rattle.bay_model.specs.Points.{Past, nothing};
ghost use Rattle.bay_model.specs.Services.{singles_of};
ghost use Rattle.bay_model.specs.Sets.{dynamic};
ghost use Rattle.bay_model.specs.Singles.{outcomes, after_singles};
ghost use Rattle.object_model.specs.Tables.{set_rows};
ghost use Rattle.data_sets.specs.Books.{opened, set_at};
ghost use Rattle.setting_groups.specs.Opened.{IsGrouped};
ghost use Rattle.bay_replies.specs.Asking.{IsReading};
ghost use Rattle.bay_replies.specs.Plain.{HasGroups, IsPlainNode};
ghost use Rattle.bay_replies.specs.Points.{arrivals, AreAllowed};
ghost use Rattle.bay_replies.specs.Standing.{SetsStand};

/// Nothing comes of the single reads of a request that reads and writes no variable, where the members of data sets are nodes that may be
/// members: its points are as many arrivals.
pub fn nothing_comes_of_reads()
    ensures deeds { (c : Config) (a n m : ℕ) (past : Past) (s : Service)
        → AreAllowed c past → IsReading s
        → map deed_of (outcomes (configured_model c) a n m
        (singles_of (configured_model c) past s) past)
        ≡ map (λ o. nothing) (singles_of (configured_model c) past s) }
    ensures points { (c : Config) (a n m : ℕ) (past : Past) (s : Service)
        → AreAllowed c past → IsReading s
        → after_singles (configured_model c) a n m (singles_of (configured_model c) past s) past
        ≡ arrivals n m (length (singles_of (configured_model c) past s)) past }
{}

/// The nodes of a configuration are attributes, components of report blocks and of setting group blocks, what controls have, and
/// structures of these, all of which are there; an SBO may be no member of a data set.
pub fn nodes_are_plain()
    ensures { (c : Config) (n : ℕ) → IsGrouped c
        → IsPlainNode (length (attributes c)) (length c.blocks) (length c.controls) (HasGroups c)
        (node_of (configured_model c) n) }
{}

/// The opened book has the data sets of each history in which clients defined none, and each of them has a name.
pub fn opened_books_are_served()
    ensures sets { (c : Config) (past : Past) → dynamic past ≡ []
        → SetsStand (opened (set_rows c)) (configured_model c) past }
    ensures named { (c : Config) (k : ℕ) → k < length (opened (set_rows c)).sets
        → (set_at (opened (set_rows c)) k).name.item ≢ [] }
{}
