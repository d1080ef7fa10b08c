//! What the queue of an association comes to over whole histories. The functions run nothing: each contract is a law.

ghost use Rattle.history_laws.specs.WaitsFor.{WaitsAreTheRest, GivenAreFew, TakesAreInOrder};
ghost use Rattle.history_laws.specs.WaitsFor.{QueuesAreShort};

/// What waits for an association is the list of the outputs that were put for it since its last opening, in their order, less as many of
/// the oldest as Takes have given; Takes have given no more than were put. A Take of an open association gives the oldest that no Take
/// has given, where there is one, and then one more is given. After every history of accepted steps at most 16 replies wait for an
/// association.
pub fn what_waits_was_put_and_not_given()
    ensures waits { WaitsAreTheRest }
    ensures few { GivenAreFew }
    ensures taken { TakesAreInOrder }
    ensures full { QueuesAreShort }
{}
