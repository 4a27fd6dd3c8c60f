//! What holds of loads and histories. These functions do nothing: each is the proof of what its clause says.
ghost use Rattle.sw_load.specs.Limit.{AcceptedHistoriesEnd};

/// Where a certificate is accepted for a network, each history of a load has fewer steps than the
/// limit that is enough for it.
pub fn accepted_histories_end()
    ensures { AcceptedHistoriesEnd }
{}
