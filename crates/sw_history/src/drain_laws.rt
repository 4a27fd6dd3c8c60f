//! What holds of networks with an accepted certificate. These functions do nothing: each is the proof
//! of what its clause says.
ghost use Rattle.sw_history.specs.DrainLaws.{AcceptedIdleIsEmpty, AcceptedIdleIsEmptyWithinLimits};

/// Where a certificate is accepted for a network, nothing is undelivered in a state in which no link
/// end has a possible step other than a beginning, if it is reached by a run that keeps the limits on
/// unanswered commands; and in any reached one, if no node has a limit.
pub fn accepted_idle_is_empty()
    ensures within_limits { AcceptedIdleIsEmptyWithinLimits }
    ensures without_limits { AcceptedIdleIsEmpty }
{}
