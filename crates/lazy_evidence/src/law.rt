// What the definitions promise.
ghost use Rattle.lazy_evidence.specs.Laws.{PositionsHaveEvidence, PartsAreAmong, AllAreAmong, NextAreAmong, GroupsAreAmong};

/// Over told sources, where the binding of a position of an operator is among the operator's events, the nodes at its parts are right evidence of it.
pub fn positions_have_evidence()
    ensures { PositionsHaveEvidence }
{}

/// Over told sources, where the binding of a position of an operator is among the operator's events, that of its part at each input on the way is among
/// those of the input.
pub fn parts_are_among()
    ensures { PartsAreAmong }
{}

/// Each binding of events is among them.
pub fn all_are_among()
    ensures { AllAreAmong }
{}

/// Where all bindings of some events are among others, so are the next one that is found and all after it.
pub fn next_are_among()
    ensures { NextAreAmong }
{}

/// The first binding with its keys among events, and all of its group after it, are among them.
pub fn groups_are_among()
    ensures { GroupsAreAmong }
{}
