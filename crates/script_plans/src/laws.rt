//! What holds of every plan.

ghost use Rattle.script_plans.specs.Grammar.{RehearsalsComeToTheirPlans, PlansAreOfRehearsals};
ghost use Rattle.script_plans.specs.Grammar.{PlansAreOne};
ghost use Rattle.script_plans.specs.Sound.{PlansAreSound};

/// A plan's configuration is that of its lines, and each line of a script is told by the script's own lines before it, whatever
/// other scripts there are.
pub fn plans_are_sound()
    ensures sound { PlansAreSound }
{}

/// An input has the plan of the grammar exactly where it comes to that plan, and it has one.
pub fn inputs_come_to_their_plans()
    ensures whole { RehearsalsComeToTheirPlans }
    ensures plan { PlansAreOfRehearsals }
    ensures one { PlansAreOne }
{}
