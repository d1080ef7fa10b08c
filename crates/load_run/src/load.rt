//! A made record, replayed to its end.

ghost use Rattle.std.specs.Prelude.{◌≡◌, ◌^◌, [], Ok, IfOk, OnOk};
ghost use Rattle.cfg_parser.specs.Looking.{config_at};
ghost use Rattle.record_outcome.specs.Histories.{lines_of, history_of};
ghost use Rattle.made_records.specs.Texts.{configuration, made_record};
ghost use Rattle.load_run.specs.Summaries.{IsSummed};
ghost use Rattle.load_run.specs.Loads.{Loads, Follows, IsFew};

use crate::loading::Loading;
use crate::summary::Summary;
use bay_core::Bay;
use bay_model::Step;
use cfg_text::read_config;
use made_records::{CONFIGURATION, Draw, ENABLING_LINE, OPENING_LINE, push_octets};
use object_model::Model;
use std::alloc::{AllocError, Global};

/// A bay of the configuration of made records, before its first step.
fn start(alloc: Global) -> Result<Loading, AllocError>
    ensures config { IfOk result (λ l. config_at configuration ≡ Ok l.bay.config) }
    ensures loads { IfOk result (λ l. Loads l l.bay.config []) }
    ensures few { IfOk result (λ l. IsFew l 0) }
{
    let Ok(config) = read_config(alloc, CONFIGURATION) else {
        return Err(AllocError);
    };
    let model = Model::build(alloc, config)?;
    let bay = Bay::open(alloc, model)?;
    Loading::new(alloc, bay)
}

/// Applies a line. No line of a made record is refused; one that were would end as where there is no memory.
fn follow(
    alloc: Global,
    loading: &mut Loading,
    line: &[u8],
    kept: &mut Step,
) -> Result<(), AllocError>
    requires { IsFew loading.old (2 ^ 61) }
    ensures { OnOk result (Follows loading.old loading.new line.now) }
{
    if loading.read(alloc, line, kept)? {
        Ok(())
    } else {
        Err(AllocError)
    }
}

/// Replays the record that a seed makes with n drawn lines, and gives what its history comes to. Its text is not made: one line is in
/// memory at once, and of the answers only their number.
pub fn load_made(alloc: Global, seed: u64, count: u32) -> Result<Summary, AllocError>
    ensures { IfOk result (IsSummed (history_of (lines_of (made_record seed count)))) }
{
    let mut loading = start(alloc)?;
    let mut kept = Step::Tick;
    follow(alloc, &mut loading, OPENING_LINE, &mut kept)?;
    follow(alloc, &mut loading, ENABLING_LINE, &mut kept)?;
    let mut draw = Draw::new(seed);
    let mut line = Vec::new(alloc);
    for turn in 0..count {
        line.clear();
        push_octets(&mut line, draw.next())?;
        follow(alloc, &mut loading, &line, &mut kept)?;
    }
    Ok(loading.summary())
}
