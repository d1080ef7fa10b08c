//! A bay is opened.

ghost use Rattle.std.specs.Prelude.{◌≡◌, ◌≤◌, [], Some, length, map, replicate, vec_capacity};
ghost use Rattle.object_model.specs.Nodes.{node_rows};
ghost use Rattle.object_model.specs.Tables.{set_rows};
ghost use Rattle.data_sets.specs.Books.{opened as booked};
ghost use Rattle.value_store.specs.Opened.{opened};
ghost use Rattle.bay_model.specs.NamedLines.{domains as domains_of};
ghost use Rattle.setting_groups.specs.Opened.{opened as grouped};
ghost use Rattle.report_block.specs.Events.{HasRoom};
ghost use Rattle.bay_config.specs.Servable.{IsServable};
ghost use Rattle.bay_core.specs.Standing.{StandsFor};
ghost use Rattle.block_watch.specs.Watched.{IsWatching};
ghost use Rattle.bay_opening.specs.Opened.{seen, part_defined, queues_opened};

use crate::bay::Bay;
use bay_opening::{Made, Rooms, parts_made};
use object_model::Model;
use std::alloc::{AllocError, Global};
use sv_base::Moment;

/// A bay of a model and of what was made for it, with no step made.
fn begun(made: Made) -> Bay
    requires servable { IsServable made.model }
    requires values { made.values ≡ opened made.model }
    requires groups { made.groups ≡ grouped made.model (domains_of made.model) }
    requires sets { made.sets ≡ booked (set_rows made.model) }
    requires parts { map seen made.parts.items
        ≡ map (part_defined (booked (set_rows made.model))) made.model.blocks }
    requires dues { made.rooms.dues ≡ replicate (length made.parts.items) (Some 0) }
    requires associations { made.rooms.associations ≡ queues_opened made.model }
    requires watch { IsWatching (node_rows made.model) made.sets
        (length made.values) made.parts.items made.watch }
    requires events { HasRoom 256 made.rooms.events }
    requires octets { made.rooms.octets.room ≡ 129024 }
    requires changes { length made.values ≤ vec_capacity made.rooms.changes }
    ensures config { result.config ≡ made.model }
    ensures steps { result.steps ≡ 0 }
    ensures stands { StandsFor result made.model [] }
{
    let Rooms {
        dues,
        associations,
        changes,
        events,
        octets,
    } = made.rooms;
    Bay {
        model: made.model,
        steps: 0,
        latest: Moment::first(),
        values: made.values,
        groups: made.groups,
        sets: made.sets,
        parts: made.parts,
        dues,
        associations,
        watch: made.watch,
        changes,
        events,
        octets,
        spare: None,
        rooms: None,
    }
}

impl Bay {
    ghost use Rattle.std.specs.Prelude.{◌≡◌, [], IfOk};
    ghost use Rattle.bay_config.specs.Servable.{IsServable};
    ghost use Rattle.bay_core.specs.Standing.{StandsFor};

    /// A bay of a model, with no step made. It takes the memory that notes, entries and changes need.
    pub fn open(alloc: Global, model: Model) -> Result<Bay, AllocError>
        requires { IsServable model }
        ensures config { IfOk result (λ b. b.config ≡ model) }
        ensures steps { IfOk result (λ b. b.steps ≡ 0) }
        ensures stands { IfOk result (λ b. StandsFor b model []) }
    {
        let made = parts_made(alloc, model)?;
        Ok(begun(made))
    }
}
