//! A script of a rehearsal: its lines that make steps, and these steps.

use crate::line::StepLine;
use actor_scripts::TimedStep;
use std::alloc::{AllocError, Global};
use std::marker::Model;

/// A script: its place among the scripts of the input, its lines that make steps, and these steps, in order.
#[derive(Drop)]
pub struct Script {
    place: u32,
    lines: Vec<StepLine>,
    steps: Vec<TimedStep>,
}

impl Model for Script {
    ghost use Rattle.script_plans.specs.Plans.{Script};

    ghost Value = { Script };

    ghost use Rattle.std.specs.Coded.{codes};
    ghost use Rattle.sv_base.specs.Tree.{row_code};

    ghost coded = { Prim.hlevel (codes, row_code) };

    ghost view = { λ s. record { place = s.place; lines = s.lines.items; steps = s.steps.items } };
}

impl Script {
    ghost use Rattle.std.specs.Prelude.{◌≡◌, [], OnOk};
    ghost use Rattle.script_plans.specs.Plans.{with_line};

    /// No line of it is read yet.
    pub fn new(alloc: Global, place: u32) -> Self
        ensures { result ≡ record { place = place; lines = []; steps = [] } }
    {
        Script {
            place,
            lines: Vec::new(alloc),
            steps: Vec::new(alloc),
        }
    }

    /// One line more, with its step.
    pub fn push(&mut self, line: StepLine, step: TimedStep) -> Result<(), AllocError>
        ensures { OnOk result (self.new ≡ with_line self.old line step) }
    {
        if let Err(lost) = self.lines.push(line) {
            drop(lost);
            drop(step);
            return Err(AllocError);
        }
        self.steps.push(step)?;
        Ok(())
    }

    /// How many scripts begin before it.
    pub fn place(&self) -> u32
        ensures { result ≡ self.now.place }
    {
        self.place
    }

    /// Its lines and its steps.
    pub fn into_parts(self) -> (Vec<StepLine>, Vec<TimedStep>)
        ensures { (result.0.items ≡ self.lines) × (result.1.items ≡ self.steps) }
    {
        let Script {
            place: _,
            lines,
            steps,
        } = self;
        (lines, steps)
    }
}
