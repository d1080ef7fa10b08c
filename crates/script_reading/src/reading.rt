//! A whole input of a rehearsal.

ghost use Rattle.std.specs.Prelude.{◌≡◌, ◌≤◌, ◌<◌, ◌+◌, ◌^◌, length, IfOk, OnOk};
ghost use Rattle.script_plans.specs.Inputs.{outcome};
ghost use Rattle.script_plans.specs.Plans.{Plan as ThePlan};
ghost use Rattle.script_plans.specs.Moves.{between};
ghost use Rattle.script_reading.specs.Readings.{place_of, plan_seen, Reads, HasPlan, IsRefused};
ghost use Rattle.script_reading.specs.Readings.{IsBetween, IsDecided, IsWell, LinesRead};
ghost use Rattle.script_reading.specs.Readings.{EndsBetween, Concludes};

use crate::next::Next;
use crate::plan::Plan;
use crate::session::Session;
use crate::stage::Stage;
use record_outcome::limits::MOST_OCTETS;
use record_outcome::status::{Judged, Status};
use std::alloc::{AllocError, Global};
use text_words::split_line;

/// Reads the whole lines at the front of these octets, up to one with which the reading stops or ends, and gives the rest.
fn read_lines<'a>(
    alloc: Global,
    session: &mut Session,
    octets: &'a [u8],
) -> Result<(Next, &'a [u8]), AllocError>
    requires well { IsWell session.old.stage }
    requires lines { session.old.lines + length octets.now < 2 ^ 61 }
    ensures read { IfOk result (λ r. LinesRead r.0 r.1.now session.old session.new octets.now) }
    ensures decided { IfOk result (λ r. IsDecided r.0) }
    ensures well { OnOk result (IsWell session.new.stage) }
    ensures lines { OnOk result (session.new.lines ≤ session.old.lines + length octets.now) }
{
    let mut rest = octets;
    while let Some((line, after)) = split_line(rest) {
        let next = session.read(alloc, line)?;
        match next {
            Next::On => rest = after,
            Next::Stop(status) => return Ok((Next::Stop(status), after)),
            Next::End => return Ok((Next::End, after)),
        }
    }
    Ok((Next::On, rest))
}

/// The plan that stands after the last line.
fn planned(session: Session) -> Plan
    requires { IsBetween (place_of session.stage) }
    ensures { (p : ThePlan) → place_of session.stage ≡ between p → plan_seen result ≡ p }
{
    match session.stage {
        Stage::Scripts(scripts) => scripts.into_plan(),
        Stage::Opening | Stage::Configuring { .. } => unreachable!(),
    }
}

/// What the reading of an input comes to, after its whole lines, or after the one with which it stopped or ended.
fn conclude(alloc: Global, session: Session, long: bool, next: Next, begun: bool) -> Judged<Plan>
    requires well { IsWell session.stage }
    requires lines { session.lines < 2 ^ 61 }
    requires decided { IsDecided next }
    requires ended { EndsBetween next (place_of session.stage) }
    ensures reads { IfOk result (λ r. Concludes r session long next begun) }
    ensures refused { IfOk result IsRefused }
{
    match next {
        Next::On => {
            let status = session.ended(alloc, long, begun);
            drop(session);
            Ok(Err(status?))
        }
        Next::Stop(status) => {
            drop(session);
            Ok(Err(status))
        }
        Next::End => Ok(Ok(planned(session))),
    }
}

/// Reads the input of a rehearsal: a plan, or the status with which it is refused. Every line is checked.
///
/// Fails only when out of memory.
pub fn read_rehearsal(alloc: Global, octets: &[u8]) -> Judged<Plan>
    requires { length octets.now < 2 ^ 61 }
    ensures reads { IfOk result (λ r. Reads r (outcome octets.now)) }
    ensures plan { IfOk result (λ r. HasPlan r octets.now) }
    ensures refused { IfOk result IsRefused }
{
    let long = octets.len() > MOST_OCTETS;
    let within = &octets[..octets.len().min(MOST_OCTETS)];
    let mut session = Session::new();
    match read_lines(alloc, &mut session, within) {
        Ok((next, rest)) => conclude(alloc, session, long, next, !rest.is_empty()),
        Err(error) => {
            drop(session);
            Err(error)
        }
    }
}
