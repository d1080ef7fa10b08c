//! The memory that the steps of a bay need.

ghost use Rattle.std.specs.Prelude.{◌≡◌, ◌≤◌, IfOk, Some, replicate, vec_capacity};
ghost use Rattle.report_block.specs.Events.{HasRoom};
ghost use Rattle.bay_config.specs.Servable.{IsServable};
ghost use Rattle.bay_opening.specs.Opened.{queues_opened};

use bay_model::Change;
use bay_queues::Queues;
use bay_rooms::Fixed;
use block_watch::Dues;
use report_block::EventRoom;
use std::alloc::{AllocError, Global};
use sv_base::Config;

/// Memory for what the blocks wait for and what associations wait for, for changes, and for events and replies.
#[derive(Drop)]
pub struct Rooms {
    pub dues: Dues,
    pub associations: Queues,
    pub changes: Vec<Change>,
    pub events: EventRoom,
    pub octets: Fixed,
}

/// Memory for n blocks and n attributes, with no open association and the controls as they are configured.
pub(crate) fn rooms_made(
    alloc: Global,
    config: &Config,
    blocks: usize,
    attrs: u32,
) -> Result<Rooms, AllocError>
    requires { IsServable config.now }
    ensures dues { IfOk result (λ r. r.dues ≡ replicate blocks (Some 0)) }
    ensures associations { IfOk result (λ r. r.associations ≡ queues_opened config.now) }
    ensures changes { IfOk result (λ r. attrs ≤ vec_capacity r.changes) }
    ensures events { IfOk result (λ r. HasRoom 256 r.events) }
    ensures octets { IfOk result (λ r. r.octets.room ≡ 129024) }
{
    Ok(Rooms {
        dues: Dues::open(alloc, blocks)?,
        changes: Vec::with_capacity(alloc, attrs as usize)?,
        octets: Fixed::new(alloc, 129024)?,
        events: EventRoom::new(alloc, 256)?,
        associations: Queues::open(alloc, config)?,
    })
}
