// What holds of the visit along an automaton.
ghost use Rattle.path_auto.specs.Law.{BindingsAreMatches, VisitsAreMatches};

/// The bindings of the visit along an automaton that follows a path are the matches of the path: the places strictly
/// below the start whose labels from the start the path describes, in document order, once each.
pub fn bindings_are_matches()
    ensures { BindingsAreMatches }
{}

/// The bindings of the visit along the automaton of each path, below any node of the source documents, are the path's matches.
pub fn visits_are_matches()
    ensures { VisitsAreMatches }
{}
