//! Laws of tangles and explanations. The functions do nothing: a call brings the law of its contract.
ghost use Rattle.sw_search.specs.ExplanationLaws.{ExplanationsAreOfTheVerdict, TanglesAreShown, TanglesAreWhereCyclesAre};

/// There are no tangles exactly where the dependencies have no cycle.
pub fn tangles_are_where_cycles_are()
    ensures { TanglesAreWhereCyclesAre }
{}

/// The cycle of each tangle is shown by its causes, so that `sw_cycle::check_cycle` accepts it.
pub fn tangles_are_shown()
    ensures { TanglesAreShown }
{}

/// What is told of a network is of the kind of the verdict on it: of the same flow, place and fault
/// where that is misrouted, tangles where it is cyclic, and free where it is free.
pub fn explanations_are_of_the_verdict()
    ensures { ExplanationsAreOfTheVerdict }
{}
