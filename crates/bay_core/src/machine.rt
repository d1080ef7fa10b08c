//! A bay makes its steps behind a lock.

use crate::bay::Bay;
use bay_histories::{StateMachine, StepFault};
use bay_model::{Answer, Step};
use object_model::Model;
use std::alloc::Global;
use sv_base::{ActorNo, Moment};

impl StateMachine for Bay {
    ghost use Rattle.bay_histories.specs.Rules.{bay_rules};
    ghost use Rattle.bay_core.specs.Standing.{StandsFor};

    ghost config = { λ b. b.config };

    ghost rules = { bay_rules };

    ghost stands = { StandsFor };

    fn model(&self) -> &Model {
        self.model()
    }

    fn step(
        &mut self,
        alloc: Global,
        moment: Moment,
        actor: ActorNo,
        step: &Step,
    ) -> Result<Answer, StepFault> {
        self.step(alloc, moment, actor, step)
    }
}
