//! What fills the queue of an association. The function runs nothing: its contract is a law.

ghost use Rattle.history_laws.specs.Queues.{OpenBySteps, WaitsBySteps, AcceptedBySteps};
ghost use Rattle.history_laws.specs.Queues.{AskedWithRoom};

/// An association is open as its own steps say. No fewer replies wait for it than by its own requests and Takes, and no more than these and
/// the Opers of controls under enhanced security that it wrote, so that the two are one where it wrote none. Where an association is its
/// own opener and writer, a step that it makes when it is open, or isn't, as the step asks, is refused exactly where it asks while 16
/// replies wait.
pub fn own_steps_fill_a_queue()
    ensures opened { OpenBySteps }
    ensures waits { WaitsBySteps }
    ensures accepted { AcceptedBySteps }
    ensures asked { AskedWithRoom }
{}
