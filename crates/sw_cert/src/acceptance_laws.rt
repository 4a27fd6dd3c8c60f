//! What a refusal means. These functions do nothing: each is the proof of what its clause says.
ghost use Rattle.sw_cert.specs.Least.{LeastIsLeast};
ghost use Rattle.sw_cert.specs.AcceptanceLaws.{NotRefusedIsAccepted};

/// The least number of a list that passes is in it, passes, and no lesser one does.
pub fn least_is_least()
    ensures { LeastIsLeast }
{}

/// A certificate is not refused for a valid network exactly where it is accepted for the machine's network.
pub fn not_refused_is_accepted()
    ensures { NotRefusedIsAccepted }
{}
