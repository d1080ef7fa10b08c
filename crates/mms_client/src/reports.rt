//! The reports that have come and were not given yet.

ghost use Rattle.std.specs.Prelude.{◌≡◌, ◌≤◌, ◌++◌, ◌∷◌, [], None, length, MatchResult};
ghost use Rattle.std.specs.Option.{option_to_list};
ghost use Rattle.report_joining.specs.Joining.{IsNext, joined};
ghost use Rattle.mms_client.specs.declared.fault.ClientFault.TheVariants as faults;
ghost use Rattle.mms_client.specs.Reports.{KeepsAs, RefusesPart, Heeds, RefusesTaking};

use crate::fault::{BROKEN_REPORT, ClientFault};
use crate::meaning::{Awaited, Meaning, Outcome, meaning_of};
use bay_model::Report;
use osi_stack::Event;
use report_cut::ReportPart;
use report_joining::{Begun, JoinFault, Joined, join};
use std::alloc::Global;
use std::collections::VecDeque;

/// How many reports wait at most.
const MOST: usize = 1024;

/// The reports that have come and were not given yet, and one of which more segments follow. Each has at most 256 members.
#[derive(Drop)]
pub struct Reports {
    pub whole: VecDeque<Report>,
    pub begun: Option<Begun>,
}

/// Puts a report after those that wait.
fn put(whole: &mut VecDeque<Report>, report: Report) -> Result<(), ClientFault>
    ensures puts { MatchResult result
        (λ _. whole.new.items ≡ whole.old.items ++ report ∷ []) (λ f. f ≡ faults.Memory) }
    ensures bounded { length whole.old.items ≤ 1024 → length whole.new.items ≤ 1024 }
{
    if whole.len() >= MOST {
        return Err(ClientFault::Memory);
    }
    match whole.push_back(report) {
        Ok(()) => Ok(()),
        Err(_) => Err(ClientFault::Memory),
    }
}

impl Reports {
    /// None has come.
    pub fn new(alloc: Global) -> Self
        ensures { (result.whole.items ≡ []) × (result.begun ≡ None) }
    {
        Reports {
            whole: VecDeque::new(alloc),
            begun: None,
        }
    }

    /// Takes one more PDU of a report.
    fn take(&mut self, part: ReportPart) -> Result<(), ClientFault>
        ensures takes { MatchResult result
            (λ _. IsNext self.old.begun part
            × KeepsAs (joined self.old.begun part) self.old self.new)
            (λ f. RefusesPart self.old.begun part f) }
        ensures bounded { length self.old.whole.items ≤ 1024
            → length self.new.whole.items ≤ 1024 }
    {
        match join(self.begun.take(), part) {
            Ok(Joined::Whole(report)) => put(&mut self.whole, report),
            Ok(Joined::More(begun)) => {
                self.begun = Some(begun);
                Ok(())
            }
            Err(JoinFault::Broken) => Err(BROKEN_REPORT),
            Err(JoinFault::Memory) => Err(ClientFault::Memory),
        }
    }

    /// Takes one more event: what is awaited, where it came.
    pub fn take_event(
        &mut self,
        alloc: Global,
        awaited: Awaited,
        event: &Event,
    ) -> Result<Option<Outcome>, ClientFault>
        ensures takes { MatchResult result
            (λ o. Heeds awaited event.now self.old self.new o)
            (λ f. RefusesTaking awaited event.now self.old f) }
        ensures bounded { length self.old.whole.items ≤ 1024
            → length self.new.whole.items ≤ 1024 }
    {
        match meaning_of(alloc, awaited, event)? {
            Meaning::Part(part) => {
                self.take(part)?;
                Ok(None)
            }
            Meaning::Nothing => Ok(None),
            Meaning::Came(outcome) => Ok(Some(outcome)),
        }
    }

    /// The oldest report that was not given yet.
    pub fn give(&mut self) -> Option<Report>
        ensures given { self.old.whole.items ≡ option_to_list result ++ self.new.whole.items }
        ensures begun { self.new.begun ≡ self.old.begun }
    {
        self.whole.pop_front()
    }
}
