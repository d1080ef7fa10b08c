//! Many threads over one lock, so that most of them wait for their turn.

ghost use Rattle.std.specs.Prelude.{◌≡◌, ◌<◌, ◌≤◌, ◌^◌, []};
ghost use Rattle.std.specs.Thread.{IsSend, IsSync};

use crate::example::opened_bay;
use bay_histories::StateMachine;
use bay_model::Step;
use history_lock::{History, Pass};
use std::alloc::{AllocError, Global};
use std::sync::Wait;
use std::thread::{Threads, join};
use sv_base::Moment;

/// Time passes as often as the pass has turns.
fn ticked<R: Wait, M: StateMachine>(rt: &R, history: &History<M>, mut pass: Pass<M>) -> Pass<M>
    requires pass { (pass.table ≡ history.now.table) × (pass.config ≡ history.now.config) }
    ensures same { (result.table ≡ pass.table) × (result.config ≡ pass.config) }
{
    let turns = pass.left();
    for _ in 0..turns {
        let _ = history.turn(rt, &mut pass, Moment::first(), &Step::Tick);
    }
    pass
}

/// The same in this number of threads, to which the turns are dealt by halves. The last clause is there for the prover.
#[cycle(spread)]
fn spread<R: Threads + Wait + Sync, M: StateMachine>(
    rt: &R,
    history: &History<M>,
    mut pass: Pass<M>,
    threads: u32,
) -> Pass<M>
    requires pass { (pass.table ≡ history.now.table) × (pass.config ≡ history.now.config) }
    requires numbers { threads ≤ pass.count }
    requires crossing { IsSync R.row × IsSend M.row }
    ensures same { (result.table ≡ pass.table) × (result.config ≡ pass.config) }
{
    if threads < 2 {
        return ticked(rt, history, pass);
    }
    let high = threads / 2;
    let low = threads - high;
    let turns = pass.left() / 2;
    let other = history.split(&mut pass, high, turns);
    let front = move || -> Pass<M>
        requires { IsSync R.row × IsSend M.row × (pass.table ≡ history.now.table)
            × (pass.config ≡ history.now.config) × (low ≤ pass.count) }
        ensures { (result.table ≡ pass.table) × (result.config ≡ pass.config) }
    { spread(rt, history, pass, low) };
    let back = move || -> Pass<M>
        requires { IsSync R.row × IsSend M.row × (other.table ≡ history.now.table)
            × (other.config ≡ history.now.config) × (high ≤ other.count) }
        ensures { (result.table ≡ other.table) × (result.config ≡ other.config) }
    { spread(rt, history, other, high) };
    let (mut made, more) = join(rt, front, back);
    history.join(&mut made, more);
    made
}

/// How many steps of a machine's history so many threads make in so many turns together.
fn steps_of<R: Threads + Wait + Sync, M: StateMachine>(
    rt: &R,
    alloc: Global,
    machine: M,
    threads: u32,
    turns: u64,
) -> Result<u64, AllocError>
    requires machine { M.stands machine (M.config machine) [] }
    requires threads { threads ≤ 16 }
    requires turns { turns ≤ 2 ^ 62 }
{
    let (history, mut pass) = History::new(alloc, machine, 17)?;
    let shared = history.split(&mut pass, 16, turns);
    let made = spread(rt, &history, shared, threads);
    history.join(&mut pass, made);
    Ok(history.close(pass))
}

/// The same of the example bay.
pub fn steps<R: Threads + Wait + Sync>(
    rt: &R,
    alloc: Global,
    threads: u32,
    turns: u64,
) -> Result<u64, AllocError>
    requires threads { threads ≤ 16 }
    requires turns { turns ≤ 2 ^ 62 }
{
    let bay = opened_bay(alloc)?;
    steps_of(rt, alloc, bay, threads, turns)
}

// Each of sixteen threads makes a thousand turns, where at any time some park: a turn whose end wakes no thread lets none of them
// end.
#[test]
fn each_turn_wakes_the_next(rt: HostRuntime) -> Result<(), AllocError> {
    assert!(rt; steps(&rt, rt.alloc(), 16, 16000)? == 16000);
    Ok(())
}
