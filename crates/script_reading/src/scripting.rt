//! The lines among scripts.

ghost use Rattle.std.specs.Prelude.{◌≡◌, IfOk, ℕ, List, OnOk};
ghost use Rattle.run_record.specs.Grammar.{IsLine};
ghost use Rattle.run_record.specs.Judging.{number_of};
ghost use Rattle.run_record.specs.Seen.{line_seen};
ghost use Rattle.script_plans.specs.Scripting.{strange as strange_kind, taken, told_in};
ghost use Rattle.script_plans.specs.Scripting.{inside_step};
ghost use Rattle.script_reading.specs.Readings.{IsDecided, Moved, IsStepless, IsWellOpened};
ghost use Rattle.record_outcome.specs.declared.status.Status.TheVariants.{Record};
ghost use Rattle.bay_model.specs.declared.step.Step.{Step as TheStep};
ghost use Rattle.run_record.specs.declared.line.RecLine.{RecLine};
ghost use Rattle.record_steps.specs.Resolved.{told_of};
ghost use Rattle.record_steps.specs.Telling.{telling};
ghost use Rattle.record_steps.specs.declared.heard.Heard.{Heard as TheHeard};
ghost use Rattle.script_plans.specs.Forms.{form_in};
ghost use Rattle.script_plans.specs.Plans.{Plan as ThePlan};
ghost use Rattle.script_plans.specs.Moves.{inside};

use crate::next::Next;
use crate::plan::Plan;
use actor_scripts::TimedStep;
use bay_model::Step;
use object_model::Model;
use record_outcome::status::Status;
use record_steps::Told;
use run_record::{Kind, LineView};
use script_lines::{Party, ScriptView, view_script_line};
use script_plans::{Opened, Script, ScriptForm, StepLine};
use std::alloc::{AllocError, Global};
use std::mem::replace;
use sv_base::{Moment, Octs};

/// The most scripts of an input.
pub const MOST_SCRIPTS: u32 = 16;

/// A line is refused.
fn stop(number: u64, kind: Kind) -> Next
    ensures stops { result ≡ Next.Stop (Record number (number_of kind)) }
    ensures decided { IsDecided result }
{
    Next::Stop(Status::Record {
        line: number,
        kind: kind.number(),
    })
}

/// Why a line that may not stand here is refused: for that, unless it names what isn't there.
fn strange(alloc: Global, model: &Model, line: &LineView<'_>) -> Result<Kind, AllocError>
    requires { IsLine (line_seen line.now) }
    ensures { IfOk result (λ k. number_of k ≡ strange_kind model.now (line_seen line.now)) }
{
    let mut step = Step::Tick;
    let told = ScriptForm::Shut.tell(alloc, model, line, &mut step);
    drop(step);
    match told? {
        Told::Refused(Kind::Name) => Ok(Kind::Name),
        _ => Ok(Kind::State),
    }
}

/// Takes a line with its step, after which its association is of this form.
fn take(
    alloc: Global,
    opened: &mut Opened,
    number: u64,
    text: &[u8],
    form: ScriptForm,
    step: Step,
) -> Result<(), AllocError>
    ensures { OnOk result (opened.new ≡ taken opened.old number text.now form step) }
{
    let moment = opened.moment;
    let text = match Octs::copied(alloc, text) {
        Ok(text) => text,
        Err(error) => {
            drop(step);
            return Err(error);
        }
    };
    let line = StepLine {
        number,
        text,
        form: opened.form,
        moment,
    };
    opened.form = form;
    opened.script.push(line, TimedStep { moment, step })
}

/// Does what was told of a line that makes no step.
fn pass(opened: &mut Opened, number: u64, told: Told) -> Next
    requires none { IsStepless told }
    requires well { IsWellOpened opened.old }
    ensures moves { (p : ThePlan) (text : List ℕ) (line : RecLine) (step : TheStep)
        (heard : List TheHeard)
        → Moved result (inside p opened.new) (told_in number p opened.old text line
        (telling told step heard)) }
    ensures decided { IsDecided result }
    ensures well { IsWellOpened opened.new }
{
    match told {
        Told::Nothing => Next::On,
        Told::At(moment) => {
            opened.moment = moment;
            Next::On
        }
        Told::Refused(kind) => stop(number, kind),
        Told::Step(_) | Told::Heard | Told::End => stop(number, Kind::State),
    }
}

/// Does what was told of a line, whose step is in the slot.
fn act(
    alloc: Global,
    opened: &mut Opened,
    number: u64,
    text: &[u8],
    line: &LineView<'_>,
    told: Told,
    step: Step,
) -> Result<Next, AllocError>
    requires ranges { IsLine (line_seen line.now) }
    requires well { IsWellOpened opened.old }
    ensures moves { IfOk result (λ n. (p : ThePlan) (heard : List TheHeard)
        → Moved n (inside p opened.new) (told_in number p opened.old text.now (line_seen line.now)
        (telling told step heard))) }
    ensures decided { IfOk result IsDecided }
    ensures well { OnOk result (IsWellOpened opened.new) }
{
    match told {
        Told::Step(_) => {
            let form = opened.form.behind(line);
            take(alloc, opened, number, text, form, step)?;
            Ok(Next::On)
        }
        Told::Nothing | Told::At(_) | Told::Heard | Told::Refused(_) | Told::End => {
            drop(step);
            Ok(pass(opened, number, told))
        }
    }
}

/// Reads a line of a record that the script may have.
fn play(
    alloc: Global,
    opened: &mut Opened,
    model: &Model,
    number: u64,
    text: &[u8],
    line: &LineView<'_>,
) -> Result<Next, AllocError>
    requires ranges { IsLine (line_seen line.now) }
    requires well { IsWellOpened opened.old }
    ensures moves { IfOk result (λ n. (p : ThePlan) → p.config ≡ model.now
        → Moved n (inside p opened.new) (told_in number p opened.old text.now (line_seen line.now)
        (told_of model.now (form_in opened.old.form) (line_seen line.now)))) }
    ensures decided { IfOk result IsDecided }
    ensures well { OnOk result (IsWellOpened opened.new) }
{
    let mut step = Step::Tick;
    match opened.form.tell(alloc, model, line, &mut step) {
        Ok(told) => act(alloc, opened, number, text, line, told, step),
        Err(error) => {
            drop(step);
            Err(error)
        }
    }
}

/// Reads a line of a record.
fn read_opened(
    alloc: Global,
    opened: &mut Opened,
    model: &Model,
    number: u64,
    text: &[u8],
    line: &LineView<'_>,
) -> Result<Next, AllocError>
    requires ranges { IsLine (line_seen line.now) }
    requires well { IsWellOpened opened.old }
    ensures moves { IfOk result (λ n. (p : ThePlan) → p.config ≡ model.now
        → Moved n (inside p opened.new) (inside_step number p opened.old text.now
        (line_seen line.now))) }
    ensures decided { IfOk result IsDecided }
    ensures well { OnOk result (IsWellOpened opened.new) }
{
    if opened.party.may_have(line) {
        return play(alloc, opened, model, number, text, line);
    }
    let kind = strange(alloc, model, line)?;
    Ok(stop(number, kind))
}

impl Plan {
    ghost use Rattle.std.specs.Prelude.{◌≡◌, ◌<◌, ◌==◌, ◌||◌, is_some, IfSome};
    ghost use Rattle.script_lines.specs.Grammar.{IsParty};
    ghost use Rattle.script_plans.specs.Plans.{script_of, with_script};
    ghost use Rattle.script_plans.specs.Scripting.{most_scripts, actor_for, counted};
    ghost use Rattle.script_reading.specs.Readings.{plan_seen, Begins, IsRoomy, IsWellOpened};

    /// The number of the actor of the next script.
    fn actor_of(&self, party: Party) -> u32
        requires { IsRoomy self.now }
        ensures { result ≡ actor_for (plan_seen self.now) party }
    {
        match party {
            Party::Association(a) => a.0,
            Party::Process => 17 + self.processes,
        }
    }

    /// The actor has a script.
    fn has(&self, actor: u32) -> bool
        ensures { result ≡ is_some (script_of (plan_seen self.now) actor) }
    {
        match self.slots.get(actor as usize) {
            Some(slot) => slot.is_some(),
            None => false,
        }
    }

    /// Gives the actor its script.
    fn put(&mut self, actor: u32, script: Script)
        requires roomy { IsRoomy self.old }
        requires actor { actor < 33 }
        ensures plan { plan_seen self.new ≡ with_script (plan_seen self.old) actor script }
        ensures roomy { IsRoomy self.new }
    {
        self.slots[actor as usize] = Some(script);
    }

    /// One script more begins.
    fn count_one(&mut self, party: Party)
        requires roomy { IsRoomy self.old }
        requires few { self.old.count < 16 }
        ensures plan { plan_seen self.new ≡ counted (plan_seen self.old) party }
        ensures roomy { IsRoomy self.new }
    {
        self.count += 1;
        match party {
            Party::Association(_) => {}
            Party::Process => self.processes += 1,
        }
    }

    /// There are 16 scripts, or the actor has one.
    fn is_taken(&self, actor: u32) -> bool
        ensures { result ≡ ((self.now.count == most_scripts) || is_some
            (script_of (plan_seen self.now) actor)) }
    {
        self.count == MOST_SCRIPTS || self.has(actor)
    }

    /// Begins a script; none where its actor has one, or where there are 16.
    fn begin(&mut self, alloc: Global, party: Party) -> Option<Opened>
        requires roomy { IsRoomy self.old }
        requires party { IsParty party }
        ensures begins { Begins result party (plan_seen self.old) (plan_seen self.new) }
        ensures roomy { IsRoomy self.new }
        ensures well { IfSome result IsWellOpened }
    {
        let actor = self.actor_of(party);
        if self.is_taken(actor) {
            return None;
        }
        let script = Script::new(alloc, self.count);
        self.count_one(party);
        Some(Opened {
            party,
            actor,
            form: ScriptForm::Shut,
            moment: Moment::first(),
            script,
        })
    }
}

/// What is read among scripts: the scripts that have ended, and the one that has not.
#[derive(Drop)]
pub struct Scripts {
    pub plan: Plan,
    pub current: Option<Opened>,
}

impl Scripts {
    ghost use Rattle.std.specs.Prelude.{◌≡◌, None, IfOk, OnOk};
    ghost use Rattle.run_record.specs.Grammar.{IsLine};
    ghost use Rattle.run_record.specs.Seen.{line_seen};
    ghost use Rattle.script_lines.specs.Grammar.{IsParty};
    ghost use Rattle.script_lines.specs.Seen.{view_seen};
    ghost use Rattle.script_plans.specs.Scripting.{begins, ended, between_line, inside_step};
    ghost use Rattle.script_plans.specs.Scripting.{inside_line, among_line};
    ghost use Rattle.script_plans.specs.Inputs.{lines_at};
    ghost use Rattle.script_reading.specs.Readings.{plan_seen, scripts_seen, Moved, IsDecided};
    ghost use Rattle.script_reading.specs.Readings.{IsRoomy, IsWellOpened, IsWellScripts, IsView};

    /// No script is read yet.
    pub fn new(plan: Plan) -> Self
        ensures { result ≡ record { plan = plan; current = None } }
    {
        Scripts {
            plan,
            current: None,
        }
    }

    /// The scripts that have ended.
    pub fn into_plan(self) -> Plan
        ensures { result ≡ self.plan }
    {
        let Scripts { plan, current } = self;
        drop(current);
        plan
    }

    /// A script begins, between others.
    fn begin(&mut self, alloc: Global, number: u64, party: Party) -> Next
        requires between { self.old.current ≡ None }
        requires party { IsParty party }
        requires well { IsWellScripts self.old }
        ensures moves { Moved result (scripts_seen self.new)
            (begins number (plan_seen self.old.plan) party) }
        ensures decided { IsDecided result }
        ensures well { IsWellScripts self.new }
    {
        match self.plan.begin(alloc, party) {
            Some(opened) => {
                self.current = Some(opened);
                Next::On
            }
            None => stop(number, Kind::State),
        }
    }

    /// The last line of an input.
    fn end(&self, number: u64) -> Next
        requires between { self.now.current ≡ None }
        ensures moves { Moved result (scripts_seen self.now)
            (ended number (plan_seen self.now.plan)) }
        ensures decided { IsDecided result }
    {
        if self.plan.count == 0 {
            return stop(number, Kind::State);
        }
        Next::End
    }

    /// Reads a line between scripts.
    fn read_between(
        &mut self,
        alloc: Global,
        number: u64,
        view: &ScriptView<'_>,
    ) -> Result<Next, AllocError>
        requires between { self.old.current ≡ None }
        requires ranges { IsView (view_seen view.now) }
        requires well { IsWellScripts self.old }
        ensures moves { IfOk result (λ n. Moved n (scripts_seen self.new)
            (between_line number (plan_seen self.old.plan) (view_seen view.now))) }
        ensures decided { IfOk result IsDecided }
        ensures well { OnOk result (IsWellScripts self.new) }
    {
        match view {
            ScriptView::Begins(party) => Ok(self.begin(alloc, number, *party)),
            ScriptView::Closes => Ok(stop(number, Kind::State)),
            ScriptView::Step(LineView::Skip) => Ok(Next::On),
            ScriptView::Step(LineView::End) => Ok(self.end(number)),
            ScriptView::Step(line) => {
                let kind = strange(alloc, &self.plan.model, line)?;
                Ok(stop(number, kind))
            }
        }
    }

    /// Reads a line of a record in the script that has begun.
    fn read_step(
        &mut self,
        alloc: Global,
        number: u64,
        text: &[u8],
        line: &LineView<'_>,
        opened: Opened,
    ) -> Result<Next, AllocError>
        requires ranges { IsLine (line_seen line.now) }
        requires roomy { IsRoomy self.old.plan }
        requires well { IsWellOpened opened }
        ensures moves { IfOk result (λ n. Moved n (scripts_seen self.new)
            (inside_step number (plan_seen self.old.plan) opened text.now (line_seen line.now))) }
        ensures decided { IfOk result IsDecided }
        ensures well { OnOk result (IsWellScripts self.new) }
    {
        let mut opened = opened;
        let next = read_opened(alloc, &mut opened, &self.plan.model, number, text, line)?;
        self.current = Some(opened);
        Ok(next)
    }

    /// Reads a line in the script that has begun.
    fn read_inside(
        &mut self,
        alloc: Global,
        number: u64,
        text: &[u8],
        view: &ScriptView<'_>,
        opened: Opened,
    ) -> Result<Next, AllocError>
        requires between { self.old.current ≡ None }
        requires ranges { IsView (view_seen view.now) }
        requires roomy { IsRoomy self.old.plan }
        requires well { IsWellOpened opened }
        ensures moves { IfOk result (λ n. Moved n (scripts_seen self.new)
            (inside_line number (plan_seen self.old.plan) opened text.now (view_seen view.now))) }
        ensures decided { IfOk result IsDecided }
        ensures well { OnOk result (IsWellScripts self.new) }
    {
        match view {
            ScriptView::Begins(_) => Ok(stop(number, Kind::State)),
            ScriptView::Closes => {
                self.plan.put(opened.actor, opened.script);
                Ok(Next::On)
            }
            ScriptView::Step(line) => self.read_step(alloc, number, text, line, opened),
        }
    }

    /// Reads a line that says something.
    fn read_view(
        &mut self,
        alloc: Global,
        number: u64,
        text: &[u8],
        view: &ScriptView<'_>,
    ) -> Result<Next, AllocError>
        requires ranges { IsView (view_seen view.now) }
        requires well { IsWellScripts self.old }
        ensures moves { IfOk result (λ n. Moved n (scripts_seen self.new)
            (among_line number (plan_seen self.old.plan) self.old.current text.now
            (view_seen view.now))) }
        ensures decided { IfOk result IsDecided }
        ensures well { OnOk result (IsWellScripts self.new) }
    {
        match replace(&mut self.current, None) {
            None => self.read_between(alloc, number, view),
            Some(opened) => self.read_inside(alloc, number, text, view, opened),
        }
    }

    /// Reads a line, without its newline.
    pub fn read(&mut self, alloc: Global, number: u64, line: &[u8]) -> Result<Next, AllocError>
        requires well { IsWellScripts self.old }
        ensures moves { IfOk result (λ n. Moved n (scripts_seen self.new)
            (lines_at number (scripts_seen self.old) line.now)) }
        ensures decided { IfOk result IsDecided }
        ensures well { OnOk result (IsWellScripts self.new) }
    {
        match view_script_line(line) {
            Ok(view) => self.read_view(alloc, number, line, &view),
            Err(kind) => Ok(stop(number, kind)),
        }
    }
}
