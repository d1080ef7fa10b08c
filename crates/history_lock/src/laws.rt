//! Passes and histories go to other threads.

ghost use denote.Param.Send.{IsSend, IsSync};
ghost use Rattle.history_lock.specs.contracts.history.Pass.{the_row as pass_row};
ghost use Rattle.history_lock.specs.contracts.history.History.{the_row as history_row};

use bay_histories::StateMachine;

/// A pass may go to another thread, and several threads may use one history, of every machine.
pub fn passes_cross_threads<M: StateMachine>()
    ensures pass { IsSend (pass_row M.row M.StateMachine) }
    ensures history { IsSync (history_row M.row M.StateMachine) }
{}
