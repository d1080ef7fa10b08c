//! How rehearsals end. The function runs nothing: its contract is a law.

ghost use Rattle.server_run.specs.Rehearsals.{EndingsAreKnown};

/// Where neither memory is lacking nor an end fails, the status of a rehearsal is that of the first refusal of its octets, or, of a plan, Ok
/// or Limit 2 at a line that asks where the own bound of its script is at least 16; Ok where there is no such line. Where no script writes an Oper of
/// a control under enhanced security, the status is known from the octets alone: the line is the lowest of these.
pub fn endings_are_known()
    ensures known { EndingsAreKnown }
{}
