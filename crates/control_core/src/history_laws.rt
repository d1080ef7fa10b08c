//! What the definitions of a control come to over whole histories, in the words in which a reader knows them. The functions run
//! nothing: each contract is a law.

ghost use Rattle.control_core.specs.CallsAccepted.{CallsAreAccepted, CallsAreTheAskers};
ghost use Rattle.control_core.specs.CallsAccepted.{StepsCallNothing, OpersAct, ActsAreOpers};
ghost use Rattle.control_core.specs.ExecutionsAre.{ExecutionsAre, TerminationsAre};
ghost use Rattle.control_core.specs.ExecutionsAre.{OtherDonesChangeNothing, TestsFollow};
ghost use Rattle.control_core.specs.SelectionsAre.{SelectionsAre};
ghost use Rattle.control_core.specs.TerminationsWait.{TerminationsWait, RunningAreOpen};
ghost use Rattle.control_core.specs.TerminationsWait.{TestsAreNew};

/// After every history an association has a control that can be selected selected exactly where the selection that stands is its.
pub fn selections_are()
    ensures { SelectionsAre }
{}

/// After every history of accepted steps a control with enhanced security executes its last Oper until a Take gives its termination, or its
/// association is lost after the termination was put, or there is a Done after a loss before that. A Done puts the termination of an
/// Oper that is no test exactly where it is the first after it and its association wasn't lost since; every other but the first after a loss
/// changes nothing. The terminations of a request's test operates follow its reply, in their order.
pub fn executions_are()
    ensures are { ExecutionsAre }
    ensures put { TerminationsAre }
    ensures others { OtherDonesChangeNothing }
    ensures tests { TestsFollow }
{}

/// After every history of accepted steps a termination of a control waits for an association exactly where its command runs and
/// its termination was put, and then once; the association of a command that runs is open, unless it was lost before the end; and
/// what waits for the asker at the end of a request is for each control, with what its test operates put, at most one.
pub fn terminations_wait()
    ensures wait { TerminationsWait }
    ensures open { RunningAreOpen }
    ensures tests { TestsAreNew }
{}

/// After every history each call of a control was accepted at its point, and each selection could be made there. The calls and
/// selections of a request are its asker's, and no other step brings any.
pub fn calls_are_accepted()
    ensures accepted { CallsAreAccepted }
    ensures asker { CallsAreTheAskers }
    ensures alone { StepsCallNothing }
{}

/// An Oper acts exactly where it is accepted and its Test is FALSE, and nothing else acts.
pub fn opers_act()
    ensures act { OpersAct }
    ensures alone { ActsAreOpers }
{}
