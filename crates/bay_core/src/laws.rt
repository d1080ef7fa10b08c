//! Bays go to other threads.

ghost use denote.Param.Send.{IsSend, IsSync};
ghost use Rattle.bay_model.specs.contracts.answer.Answer.{the_row as answer_row};
ghost use Rattle.bay_model.specs.contracts.step.Step.{the_row as step_row};
ghost use Rattle.bay_core.specs.contracts.bay.Bay.{the_row as bay_row};

/// A bay may go to another thread, and so may a step and what it is answered. Several threads may use one step.
pub fn bays_cross_threads()
    ensures bay { IsSend bay_row }
    ensures step { IsSend step_row }
    ensures answer { IsSend answer_row }
    ensures shared { IsSync step_row }
{}
