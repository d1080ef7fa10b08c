//! The PDUs of an output.

ghost use Rattle.std.specs.Prelude.{◌≡◌, ◌≤◌, length, IfOk};
ghost use Rattle.std.specs.List.{AllByRecursion};
ghost use Rattle.bay_answers.specs.Replies.{output_pdus};

use crate::sendable::can_be_sent;
use bay_answers::to_bytes;
use bay_model::Output;
use object_model::Model;
use report_cut::Pdus;
use std::alloc::{AllocError, Global};

/// The PDUs of an output, of at most `size` octets each, 1024 to 65000 (IEC 61850-8-1, the mapping of its services). An output
/// that can't be sent, which is none of a bay's, fails as if out of memory.
pub fn pdus_of(alloc: Global, model: &Model, size: u32, output: &Output) -> Result<Pdus, AllocError>
    requires least { 1024 ≤ size }
    requires most { size ≤ 65000 }
    ensures pdus { IfOk result (λ p. p ≡ output_pdus model.now size output.now) }
    ensures short { IfOk result (λ p. AllByRecursion (λ o. length o ≤ size) p) }
{
    if !can_be_sent(model, output) {
        return Err(AllocError);
    }
    to_bytes(alloc, model, output, size)
}
