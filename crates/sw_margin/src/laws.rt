//! Laws of what is told. These functions do nothing: each is the proof of what its clause says.
ghost use Rattle.sw_margin.specs.Laws.{AnsweredAlongItsFirstWayIsFree, AnsweredAlongItsWayIsFree, AnswersAreDetermined, AnswersTell, FlowLimitsAreDetermined, FreeBefore};
ghost use Rattle.sw_margin.specs.Laws.{LossesAreDetermined, OneWayIsOneWay, StallsAreDetermined, StallsNeverLockUp, StallsTell, UnlimitedAnswersAreExact, UpToTheGreatestFree, WaitsGoBack, WaysAreWays, WaysHaveAllPlaces};

/// What is told of the nodes of a network is determined.
pub fn stalls_are_determined()
    ensures { StallsAreDetermined }
{}

/// What is told of the flows of a network is determined.
pub fn answers_are_determined()
    ensures { AnswersAreDetermined }
{}

/// What is told of limits on unanswered commands is determined.
pub fn flow_limits_are_determined()
    ensures { FlowLimitsAreDetermined }
{}

/// A free network is free with each number of unanswered commands of a flow from its own limit on to the greatest.
pub fn up_to_the_greatest_free()
    ensures { UpToTheGreatestFree }
{}

/// What is told of the links of a network is determined.
pub fn losses_are_determined()
    ensures { LossesAreDetermined }
{}

/// Whatever else waits, a network that stays free is free.
pub fn free_before()
    ensures { FreeBefore }
{}

/// Of each flow of a free network the way is its first way, from its start to its node.
pub fn ways_are_ways()
    ensures { WaysAreWays }
{}

/// The way of a flow that goes one way has the places of the flow, and no others.
pub fn ways_have_all_places()
    ensures { WaysHaveAllPlaces }
{}

/// What waits where replies go back over the links of a way.
pub fn waits_go_back()
    ensures { WaitsGoBack }
{}

/// Where a network stays free with the waits of a flow that is answered, it is free with each reply of that flow that goes back over
/// the links of the flow's first way.
pub fn answered_along_its_first_way_is_free()
    ensures { AnsweredAlongItsFirstWayIsFree }
{}

/// So it is, where the flow goes one way, with each reply that goes back over the links of the flow.
pub fn answered_along_its_way_is_free()
    ensures { AnsweredAlongItsWayIsFree }
{}

/// With such a reply without a limit it is free exactly where it stays free with these waits.
pub fn unlimited_answers_are_exact()
    ensures { UnlimitedAnswersAreExact }
{}

/// A network that stays free where a node takes nothing while it wants to send never locks up in the machine in which that node takes
/// a character only while it has nothing to send.
pub fn stalls_never_lock_up()
    ensures { StallsNeverLockUp }
{}

/// A flow of which the test says so goes one way.
pub fn one_way_is_one_way()
    ensures { OneWayIsOneWay }
{}

/// What is told of a node of a free network: where it says that the network stays free, it never locks up while that node takes a
/// character only when it has nothing to send.
pub fn stalls_tell()
    ensures { StallsTell }
{}

/// What is told of a flow of a free network: where it says that the network stays free, it is free with each reply of that flow that
/// goes back over the links of the flow.
pub fn answers_tell()
    ensures { AnswersTell }
{}
