//! What holds of histories. These functions do nothing: each is the proof of what its clause says.
ghost use Rattle.sw_history.specs.Laws.{FollowsWherePossible, OneStateAfter};

/// The state after a history is one.
pub fn one_state_after()
    ensures { OneStateAfter }
{}

/// A step may follow a history exactly where it is possible in the state after it, begins no packet
/// but the next of its node, and keeps the limit on unanswered commands.
pub fn follows_where_possible()
    ensures { FollowsWherePossible }
{}
