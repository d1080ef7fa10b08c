//! The octets of what an association takes, on its line.

ghost use Rattle.std.specs.Prelude.{◌≡◌, ◌≤◌, ◌++◌, length, OnOk, IfOk};
ghost use Rattle.std.specs.List.{flat_map, AllByRecursion};
ghost use Rattle.osi_stack.specs.Lines.{IsLine};
ghost use Rattle.osi_stack.specs.Framed.{framed};
ghost use Rattle.assoc_workers.specs.Writing.{octets_of as octets_sent};

use bay_model::Output;
use object_model::Model;
use osi_stack::Line;
use output_pdus::{pdus_of, tpkts_of};
use std::alloc::{AllocError, Global};
use sv_base::Octs;

/// Adds PDUs of at most 65000 octets, each in its TPKTs.
fn add_all(alloc: Global, line: Line, pdus: &[Octs], out: &mut Vec<u8>) -> Result<(), AllocError>
    requires line { IsLine line }
    requires short { AllByRecursion (λ o. length o ≤ 65000) pdus.now }
    ensures { OnOk result (out.new.items ≡ out.old.items ++ flat_map (framed line) pdus.now) }
{
    match pdus {
        [] => Ok(()),
        [pdu, more @ ..] => {
            let tpkts = tpkts_of(alloc, line, pdu.as_slice())?;
            out.extend_from_slice(tpkts.as_slice())?;
            add_all(alloc, line, more, out)
        }
    }
}

/// The octets of an output on a line: its PDUs, each in its TPKTs. Fails only when out of memory.
pub fn octets_of(
    alloc: Global,
    model: &Model,
    line: Line,
    output: &Output,
) -> Result<Vec<u8>, AllocError>
    requires line { IsLine line }
    ensures { IfOk result (λ o. o.items ≡ octets_sent model.now line output.now) }
{
    let pdus = pdus_of(alloc, model, line.size, output)?;
    let mut out = Vec::new(alloc);
    add_all(alloc, line, pdus.as_slice(), &mut out)?;
    Ok(out)
}
