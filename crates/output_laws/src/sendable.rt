//! What can be sent of what a bay answers. The function runs nothing: its contract is a law.

ghost use Rattle.output_laws.specs.Sendable.{OutputsCanBeSent};

/// Of a configuration that is read from a text: whatever a Take gives after a history of accepted steps can be sent. Each node and control
/// in it is one of the configuration's, a reject has the number of a refusal, and what was read is Data at most ten deep; what is said of
/// a command has at most the octets of its type; a report has ten options, an RptID and a DatSet of at most 129 octets, and 1 to 256
/// members in its data set, and its own ascend by their numbers, each with a reference of at most 129 octets and one Data of at most 500,
/// at most ten deep.
pub fn outputs_can_be_sent()
    ensures { OutputsCanBeSent }
{}
