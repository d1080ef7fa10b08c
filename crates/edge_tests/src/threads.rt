//! Turns of threads over one lock, and turns that are refused.

ghost use Rattle.std.specs.Prelude.{◌≡◌, ◌<◌, ◌≤◌, []};
ghost use Rattle.std.specs.Thread.{IsSend};

use crate::example::opened_bay;
use bay_histories::{StateMachine, StepFault};
use bay_model::{Answer, Sets, Setting, Step};
use history_lock::{History, Pass, TurnFault};
use object_model::Model;
use std::alloc::{AllocError, Global};
use std::sync::Wait;
use std::thread::{Threads, join};
use sv_base::{AssocNo, Moment, Value};

/// What a thread does at each of its turns: the process sets the measured power to another number, or time passes.
#[derive(Clone, Copy)]
enum Work {
    Values,
    Ticks,
}

/// The step of a turn, which sets the power to its number.
fn step_of(alloc: Global, model: &Model, work: Work, number: u32) -> Result<Step, AllocError> {
    match work {
        Work::Values => {
            let Some(attr) = model.attr(b"BAY1/MMXU1$MX$TotW$mag$i") else {
                return Err(AllocError);
            };
            let setting = Setting {
                attr,
                value: Value::Int(i64::from(number)),
            };
            Ok(Step::Value(Sets::from_vec(vec![in alloc; setting]?)))
        }
        Work::Ticks => Ok(Step::Tick),
    }
}

/// Makes a turn, where the step fits the configuration.
fn turn<R: Wait, M: StateMachine>(rt: &R, history: &History<M>, pass: &mut Pass<M>, step: &Step)
    requires pass { (pass.old.table ≡ history.now.table) × (pass.old.config ≡ history.now.config) }
    ensures same { (pass.new.table ≡ pass.old.table) × (pass.new.config ≡ pass.old.config) }
{
    if history.model().fits(step) {
        let _ = history.turn(rt, pass, Moment::first(), step);
    }
}

/// A thousand turns of a work.
fn worked<R: Wait + AllocGlobal, M: StateMachine>(
    rt: &R,
    history: &History<M>,
    mut pass: Pass<M>,
    work: Work,
) -> Pass<M>
    requires pass { (pass.table ≡ history.now.table) × (pass.config ≡ history.now.config) }
    ensures same { (result.table ≡ pass.table) × (result.config ≡ pass.config) }
{
    for n in 1..1001 {
        if let Ok(step) = step_of(rt.alloc(), history.model(), work, n) {
            turn(rt, history, &mut pass, &step);
        }
    }
    pass
}

/// A thousand values in one thread, a thousand ticks in another.
fn values_and_ticks<R: Threads + Wait + Sync + AllocGlobal, M: StateMachine>(
    rt: &R,
    history: &History<M>,
    mut pass: Pass<M>,
) -> Pass<M>
    requires pass { (pass.table ≡ history.now.table) × (pass.config ≡ history.now.config) }
    requires portions { (1 < pass.count) × (1000 ≤ pass.left) }
    ensures same { (result.table ≡ pass.table) × (result.config ≡ pass.config) }
{
    let other = history.split(&mut pass, 1, 1000);
    let (mut made, other) = join(
        rt,
        || -> Pass<M>
            requires { IsSend M.row × (pass.table ≡ history.now.table)
                × (pass.config ≡ history.now.config) }
        { worked(rt, history, pass, Work::Values) },
        || -> Pass<M>
            requires { IsSend M.row × (other.table ≡ history.now.table)
                × (other.config ≡ history.now.config) }
        { worked(rt, history, other, Work::Ticks) },
    );
    history.join(&mut made, other);
    made
}

/// How many steps of a machine's history two threads make, each with a pass of its own.
fn steps_of<R: Threads + Wait + Sync + AllocGlobal, M: StateMachine>(
    rt: &R,
    alloc: Global,
    machine: M,
) -> Result<u64, AllocError>
    requires { M.stands machine (M.config machine) [] }
{
    let (history, mut pass) = History::new(alloc, machine, 3)?;
    let shared = history.split(&mut pass, 2, 2000);
    let shared = values_and_ticks(rt, &history, shared);
    history.join(&mut pass, shared);
    Ok(history.close(pass))
}

/// The same of the example bay.
fn steps<R: Threads + Wait + Sync + AllocGlobal>(rt: &R, alloc: Global) -> Result<u64, AllocError> {
    let bay = opened_bay(alloc)?;
    steps_of(rt, alloc, bay)
}

/// Why a turn made no step; none where it made one.
fn fault_of(turned: Result<(Answer, u64), TurnFault>) -> Option<TurnFault> {
    match &turned {
        Ok(_) => None,
        Err(fault) => Some(*fault),
    }
}

/// What two losses of an association that isn't open are told to a pass with one turn, and how many steps the history then
/// has.
type Refused = (Option<TurnFault>, Option<TurnFault>, u64);

/// The same of a machine.
fn refused_of<R: Wait, M: StateMachine>(
    rt: &R,
    alloc: Global,
    machine: M,
) -> Result<Refused, AllocError>
    requires { M.stands machine (M.config machine) [] }
{
    let (history, mut pass) = History::new(alloc, machine, 2)?;
    let mut one = history.split(&mut pass, 1, 1);
    let lost = Step::Lost(AssocNo(1));
    let mut faults = (None, None);
    if history.model().fits(&lost) {
        faults.0 = fault_of(history.turn(rt, &mut one, Moment::first(), &lost));
        faults.1 = fault_of(history.turn(rt, &mut one, Moment::first(), &lost));
    }
    history.compare(&mut pass, &mut one);
    history.join(&mut pass, one);
    Ok((faults.0, faults.1, history.close(pass)))
}

/// The same of the example bay.
fn refused<R: Wait>(rt: &R, alloc: Global) -> Result<Refused, AllocError> {
    let bay = opened_bay(alloc)?;
    refused_of(rt, alloc, bay)
}

// Two threads make one history; a turn that the bay refuses adds nothing to it, and a pass without turns left makes none.
#[test]
fn turns_make_one_history(rt: HostRuntime) -> Result<(), AllocError> {
    let told = (steps(&rt, rt.alloc())?, refused(&rt, rt.alloc())?);
    let not_open = TurnFault::Step(StepFault::NotOpen(AssocNo(1)));
    assert!(rt; told == (2000, (Some(not_open), Some(TurnFault::Ended), 0)));
    Ok(())
}
