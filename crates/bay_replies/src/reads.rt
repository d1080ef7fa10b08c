//! Reads of variables (ISO 9506-2, Read), before their turn: a read of a control's SBO gives its reference, as if it selects.

ghost use Rattle.std.specs.Prelude.{◌≡◌, IfOk};
ghost use Rattle.bay_model.specs.Configured.{control_defined};

use crate::replies::Replies;
use crate::{left_behind, result_len};
use bay_model::{Results, Target, access_errors};
use node_reads::read_node;
use object_model::What;
use std::alloc::{AllocError, Global};
use sv_base::{AccessResult, CtlDef, NodeId, Octs, Value};

/// How many octets the empty text has, which a read of SBO gives that doesn't select.
const EMPTY_TEXT: u32 = 2;

/// What was read of variables, before their turn.
#[derive(Drop)]
pub struct Read {
    /// The results so far, in order.
    pub results: Vec<AccessResult>,
    /// Values and codes are longer than a PDU, whichever reads of SBO select.
    pub is_cut: bool,
}

/// The reference of a control, `LD/LN$CO$DO`.
fn reference_of(alloc: Global, control: &CtlDef) -> Result<Octs, AllocError>
    ensures { IfOk result (λ r. r ≡ (control_defined control.now).reference) }
{
    let mut reference = Vec::from_slice(alloc, control.domain.as_slice())?;
    reference.extend_from_slice(b"/")?;
    reference.extend_from_slice(control.ln.as_slice())?;
    reference.extend_from_slice(b"$CO$")?;
    reference.extend_from_slice(control.path.as_slice())?;
    Ok(Octs::from_vec(reference))
}

impl<'a> Replies<'a> {
    ghost use Rattle.std.specs.Prelude.{◌≡◌, ◌<◌, length, map, slice_get, IfOk};
    ghost use Rattle.std.specs.List.{All};
    ghost use Rattle.sv_base.specs.declared.numbers.NodeId.{NodeId as Node};
    ghost use Rattle.bay_model.specs.Named.{nodes as nodes_of};
    ghost use Rattle.set_view.specs.Shapes.{AreThere};
    ghost use Rattle.bay_replies.specs.Given.{node_read, target_read};
    ghost use Rattle.bay_replies.specs.Held.{held_within};
    ghost use Rattle.bay_replies.specs.Reading.{reference_read, selecting_in, IsEarly, IsRead};
    ghost use Rattle.bay_replies.specs.Reading.{IsTarget};

    /// The control whose SBO a variable is.
    fn selecting(&self, target: &Target) -> Option<u32>
        requires { IsTarget self.now.model.now target.now }
        ensures { result ≡ selecting_in self.entry.now.model.now target.now }
    {
        match target {
            Target::Node(node, _) => match self.model.role_of(*node) {
                What::Selecting(control) => Some(control),
                _ => None,
            },
            Target::Missing(_) | Target::Alternate(_) => None,
        }
    }

    /// What a control's SBO gives where its read selects.
    fn read_reference(&self, alloc: Global, control: u32) -> Result<AccessResult, AllocError>
        ensures { IfOk result (λ r. r ≡ reference_read
            (slice_get self.entry.now.model.now.controls control)) }
    {
        match self.model.config().controls.get(control as usize) {
            Some(line) => Ok(Ok(Value::Text(reference_of(alloc, line)?))),
            None => Ok(Err(access_errors::OBJECT_ACCESS_DENIED)),
        }
    }

    /// A variable that is no SBO: its value, or the code of a name that no node has, of one with alternate access, or of the node's
    /// refusal.
    fn read_target(&self, alloc: Global, target: &Target) -> Result<AccessResult, AllocError>
        requires { IsTarget self.now.model.now target.now }
        ensures { IfOk result (λ r. r ≡ target_read self.entry.now target.now) }
    {
        match target {
            Target::Node(node, _) => read_node(alloc, self.model, self, *node),
            Target::Missing(_) => Ok(Err(access_errors::OBJECT_NON_EXISTENT)),
            Target::Alternate(_) => Ok(Err(access_errors::OBJECT_ACCESS_UNSUPPORTED)),
        }
    }

    /// A variable before its turn, and how many octets its result has at least.
    fn read_early(&self, alloc: Global, target: &Target) -> Result<(AccessResult, u32), AllocError>
        requires { IsTarget self.now.model.now target.now }
        ensures { IfOk result (λ r. IsEarly self.entry.now target.now r.0 r.1) }
    {
        if let Some(control) = self.selecting(target) {
            return Ok((self.read_reference(alloc, control)?, EMPTY_TEXT));
        }
        let one = self.read_target(alloc, target)?;
        let len = result_len(&one);
        Ok((one, len))
    }

    /// Variables before their turn. It reads no further than to the first that is too much for a PDU of this size, whichever reads of SBO
    /// select. A PDU of 4294967295 octets is out of memory.
    pub fn read_targets(
        &self,
        alloc: Global,
        size: u32,
        targets: &[Target],
    ) -> Result<Read, AllocError>
        requires { All (IsTarget self.now.model.now) targets.now }
        ensures { IfOk result (λ r. IsRead self.entry.now size targets.now r) }
    {
        if size == u32::MAX {
            return Err(AllocError);
        }
        let mut results = Vec::new(alloc);
        let mut left = size;
        for target in targets {
            let (one, len) = self.read_early(alloc, target)?;
            match left_behind(left, len)? {
                Some(rest) => left = rest,
                None => {
                    return Ok(Read {
                        results,
                        is_cut: true,
                    });
                }
            }
            results.push(one)?;
        }
        Ok(Read {
            results,
            is_cut: false,
        })
    }

    /// The members of a data set likewise.
    pub(crate) fn read_nodes(
        &self,
        alloc: Global,
        size: u32,
        nodes: &[NodeId],
    ) -> Result<Option<Results>, AllocError>
        requires { AreThere (length (nodes_of self.now.model.now)) nodes.now }
        ensures { IfOk result (λ r. r ≡ held_within size
            (map (λ (x : Node). node_read self.entry.now x.0) nodes.now)) }
    {
        let mut results = Vec::new(alloc);
        let mut left = size;
        for node in nodes {
            let member = read_node(alloc, self.model, self, *node)?;
            match left_behind(left, result_len(&member))? {
                Some(rest) => left = rest,
                None => return Ok(None),
            }
            results.push(member)?;
        }
        Ok(Some(Results::from_vec(results)))
    }
}
