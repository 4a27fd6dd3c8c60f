//! What holds of outcomes where a certificate is accepted for the network. These functions do nothing: each is the proof of what its clause says.
ghost use Rattle.sw_run.specs.Laws.{HasOneCount, IsDeliveredWhereDrained, IsNotFull, IsNotStuck, IsNotWaiting, OfAcceptedOutcomes, WithoutLimitsNoneWaits};

use sw_load::history_laws::accepted_histories_end;
use sw_machine::laws::accepted_is_never_locked_up;
use sw_machine::model_laws::declared_networks_are_networks;

/// No run ends stuck, and none waits for ever.
pub fn accepted_is_not_stuck()
    ensures stuck { OfAcceptedOutcomes IsNotStuck }
    ensures waiting { OfAcceptedOutcomes IsNotWaiting }
{
    accepted_is_never_locked_up();
    declared_networks_are_networks();
}

/// Without limits on unanswered commands no run waits for ever, whatever the network.
pub fn without_limits_none_waits()
    ensures { WithoutLimitsNoneWaits }
{}

/// A run that ends drained brought each packet of the load, once, to the node where its flow ends,
/// and one reply for each that is answered.
pub fn accepted_is_delivered()
    ensures { OfAcceptedOutcomes IsDeliveredWhereDrained }
{
    declared_networks_are_networks();
}

/// Runs of one load that end drained bring as many packets to each node, whatever the number of
/// workers, their order and the limit.
pub fn accepted_counts_are_one()
    ensures { OfAcceptedOutcomes HasOneCount }
{
    accepted_is_delivered();
    declared_networks_are_networks();
}

/// Where the limit is enough for the load, no run ends with a full journal.
pub fn accepted_is_not_full()
    ensures { OfAcceptedOutcomes IsNotFull }
{
    accepted_histories_end();
    declared_networks_are_networks();
}
