//! What lines name is looked up when all are there.

ghost use Rattle.std.specs.Prelude.{◌≡◌, ℕ, List, true};
ghost use Rattle.cfg_parser.specs.Reader.{GivesText};
ghost use Rattle.cfg_lines.specs.Keys.{is_among};
ghost use Rattle.cfg_lines.specs.Nodes.{is_node, is_member_node};
ghost use Rattle.cfg_nodes.specs.Asked.{asked, is_asked};
ghost use Rattle.cfg_nodes.specs.Indexed.{is_node_in, is_member_in};
ghost use Rattle.cfg_parser.specs.Looking.{look_at, looked_at, config_at};

use crate::fault::{CfgFault, Kind};
use crate::lines::read_lines;
use cfg_lines::Line;
use cfg_nodes::{Nodes, asked_of, leaves_of};
use cfg_reading::Reading;
use std::alloc::Global;
use sv_base::Config;

/// What a line names is there, and may stand there.
#[tactic(auto, unfolding(crate::specs::Looking::look_at))]
fn look(reading: &Reading, nodes: &Nodes<'_>, number: u32, line: &Line) -> Result<(), CfgFault>
    requires asked { is_asked (asked reading.now) line.now ≡ true }
    requires nodes { (node : List ℕ) → is_among (asked reading.now) node ≡ true
        → is_node_in nodes.now node ≡ is_node reading.now node }
    requires members { (node : List ℕ) → is_among (asked reading.now) node ≡ true
        → is_member_in nodes.now node ≡ is_member_node reading.now node }
    ensures { GivesText result (look_at reading.now number line.now) }
{
    let kind = match line {
        Line::Brcb(block) => {
            let dat_set = block.dat_set.as_slice();
            if dat_set.is_empty() || reading.has_set(dat_set) {
                return Ok(());
            }
            Kind::Unknown
        }
        Line::Member(reference) => {
            let reference = reference.as_slice();
            if !nodes.has(reference) {
                Kind::Unknown
            } else if nodes.may_be_member(reference) {
                return Ok(());
            } else {
                Kind::Member
            }
        }
        _ => return Ok(()),
    };
    Err(CfgFault::Refused { line: number, kind })
}

/// Looks up what the lines name among these nodes, in their order.
fn look_among(reading: &Reading, nodes: &Nodes<'_>) -> Result<(), CfgFault>
    requires nodes { (node : List ℕ) → is_among (asked reading.now) node ≡ true
        → is_node_in nodes.now node ≡ is_node reading.now node }
    requires members { (node : List ℕ) → is_among (asked reading.now) node ≡ true
        → is_member_in nodes.now node ≡ is_member_node reading.now node }
    ensures { GivesText result (looked_at reading.now reading.now) }
{
    let lines = reading.lines();
    for (i, line) in lines.iter().enumerate() {
        look(reading, nodes, i as u32 + 1, line)?;
    }
    Ok(())
}

/// Looks up what the lines name, in their order.
fn look_up(alloc: Global, reading: &Reading) -> Result<(), CfgFault>
    ensures { GivesText result (looked_at reading.now reading.now) }
{
    let lines = reading.lines();
    let asked = asked_of(alloc, lines)?;
    let leaves = leaves_of(alloc, lines, &asked)?;
    let looked = match Nodes::of(alloc, lines, &leaves) {
        Ok(nodes) => look_among(reading, &nodes),
        Err(error) => Err(CfgFault::from(error)),
    };
    looked
}

/// The configuration of a text.
///
/// Fails with the first line that is refused, counted from 1, and its kind: on one line Long, Word, Order and Many in this
/// order, then word by word. An input that ends before `end` is refused as Order at the line after the last. What lines name
/// is looked up when all lines are there, in their order: a data set or a node that isn't there is Unknown, a node that no data
/// set may have, or whose Data may be above 500 octets, is Member. `Memory` is out of memory.
pub fn read_config(alloc: Global, text: &[u8]) -> Result<Config, CfgFault>
    ensures { GivesText result (config_at text.now) }
{
    let reading = read_lines(alloc, text)?;
    if let Err(fault) = look_up(alloc, &reading) {
        drop(reading);
        return Err(fault);
    }
    let config = reading.into_config(alloc)?;
    Ok(config)
}
