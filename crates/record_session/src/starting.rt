//! The configuration of a record.

ghost use Rattle.std.specs.Prelude.{◌≡◌, ◌<◌, ◌^◌, IfOk};
ghost use Rattle.cfg_parser.specs.Looking.{config_at};
ghost use Rattle.record_outcome.specs.Openings.{started};
ghost use Rattle.record_session.specs.Plays.{Starts, IsSound};

use crate::playing::Playing;
use bay_core::Bay;
use cfg_text::{CfgFault, read_config};
use object_model::Model;
use record_outcome::status::Status;
use std::alloc::{AllocError, Global};

/// What becomes of a whole configuration.
#[derive(Drop)]
pub enum Started {
    Plays(Playing),
    Refused(Status),
}

/// Reads the configuration after n lines, and opens its bay.
pub fn start(alloc: Global, before: u64, text: &[u8]) -> Result<Started, AllocError>
    requires { before < 2 ^ 62 }
    ensures starts { IfOk result (λ s. Starts s (started before (config_at text.now))) }
    ensures judged { IfOk result IsSound }
{
    let config = match read_config(alloc, text) {
        Ok(config) => config,
        Err(CfgFault::Refused { line, kind }) => {
            return Ok(Started::Refused(Status::Config {
                line: before + u64::from(line),
                kind: kind.number(),
            }));
        }
        Err(CfgFault::Memory) => return Err(AllocError),
    };
    let model = Model::build(alloc, config)?;
    let bay = Bay::open(alloc, model)?;
    Ok(Started::Plays(Playing::new(alloc, bay)?))
}
