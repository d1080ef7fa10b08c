//! What a bay begins with.

ghost use Rattle.std.specs.Prelude.{◌≡◌, ◌≤◌, IfOk, Some, length, map, replicate, vec_capacity};
ghost use Rattle.object_model.specs.Nodes.{node_rows};
ghost use Rattle.object_model.specs.Tables.{set_rows};
ghost use Rattle.data_sets.specs.Books.{opened as booked};
ghost use Rattle.value_store.specs.Opened.{opened};
ghost use Rattle.bay_model.specs.NamedLines.{domains as domains_of};
ghost use Rattle.setting_groups.specs.Opened.{opened as grouped};
ghost use Rattle.report_block.specs.Events.{HasRoom};
ghost use Rattle.bay_config.specs.Servable.{IsServable};
ghost use Rattle.block_watch.specs.Watched.{IsWatching};
ghost use Rattle.bay_opening.specs.Opened.{seen, part_defined, queues_opened};

use crate::blocks::blocks_made;
use crate::rooms::{Rooms, rooms_made};
use bay_values::Values;
use block_watch::Watch;
use data_sets::SetBook;
use object_model::{Model, domains};
use report_block::ReportBlock;
use setting_groups::Groups;
use std::alloc::{AllocError, Global};

/// The setting groups of all domains, as they are configured.
fn groups_of(alloc: Global, model: &Model) -> Result<Groups, AllocError>
    requires { IsServable model.now }
    ensures { IfOk result (λ g. g ≡ grouped model.now (domains_of model.now)) }
{
    let config = model.config();
    let domains = domains(alloc, config.nodes.as_slice())?;
    Groups::open(alloc, config, domains.as_slice())
}

/// What the attributes and the setting groups of a bay hold at first, and how many attributes there are.
#[derive(Drop)]
struct Held {
    values: Values,
    groups: Groups,
    attrs: u32,
}

/// The values of attributes and the setting groups, as they are configured.
fn held_at_first(alloc: Global, model: &Model) -> Result<Held, AllocError>
    requires { IsServable model.now }
    ensures values { IfOk result (λ h. h.values ≡ opened model.now) }
    ensures groups { IfOk result (λ h. h.groups ≡ grouped model.now (domains_of model.now)) }
    ensures attrs { IfOk result (λ h. h.attrs ≡ length (opened model.now)) }
{
    let values = Values::open(alloc, model.config())?;
    let Ok(attrs) = u32::try_from(values.store().len()) else {
        drop(values);
        return Err(AllocError);
    };
    let Ok(groups) = groups_of(alloc, model) else {
        drop(values);
        return Err(AllocError);
    };
    Ok(Held {
        values,
        groups,
        attrs,
    })
}

/// A model, and what a bay of it begins with.
#[derive(Drop)]
pub struct Made {
    pub model: Model,
    pub values: Values,
    pub groups: Groups,
    pub sets: SetBook,
    pub parts: Vec<ReportBlock>,
    pub watch: Watch,
    pub rooms: Rooms,
}

/// The values, the setting groups, the data sets, the controls and the blocks as they are configured, no open association, and the memory that
/// notes, entries and changes need. When out of memory the model is let go.
pub fn parts_made(alloc: Global, model: Model) -> Result<Made, AllocError>
    requires { IsServable model }
    ensures model { IfOk result (λ m. m.model ≡ model) }
    ensures values { IfOk result (λ m. m.values ≡ opened model) }
    ensures groups { IfOk result (λ m. m.groups ≡ grouped model (domains_of model)) }
    ensures sets { IfOk result (λ m. m.sets ≡ booked (set_rows model)) }
    ensures parts { IfOk result (λ m. map seen m.parts.items
        ≡ map (part_defined (booked (set_rows model))) model.blocks) }
    ensures watch { IfOk result (λ m. IsWatching (node_rows model) m.sets
        (length m.values) m.parts.items m.watch) }
    ensures dues { IfOk result (λ m. m.rooms.dues ≡ replicate (length m.parts.items) (Some 0)) }
    ensures associations { IfOk result (λ m. m.rooms.associations ≡ queues_opened model) }
    ensures events { IfOk result (λ m. HasRoom 256 m.rooms.events) }
    ensures octets { IfOk result (λ m. m.rooms.octets.room ≡ 129024) }
    ensures changes { IfOk result (λ m. length m.values ≤ vec_capacity m.rooms.changes) }
{
    let Ok(held) = held_at_first(alloc, &model) else {
        drop(model);
        return Err(AllocError);
    };
    let Ok(blocks) = blocks_made(alloc, &model, held.attrs) else {
        drop(held);
        drop(model);
        return Err(AllocError);
    };
    let Ok(rooms) = rooms_made(alloc, model.config(), blocks.parts.len(), held.attrs) else {
        drop(held);
        drop(blocks);
        drop(model);
        return Err(AllocError);
    };
    Ok(Made {
        model,
        values: held.values,
        groups: held.groups,
        sets: blocks.sets,
        parts: blocks.parts,
        watch: blocks.watch,
        rooms,
    })
}
