//! The check of a certificate.
ghost use Rattle.std.specs.Prelude.{◌≡◌, IfOk, MatchResult, Some, None};
ghost use Rattle.sw_machine.specs.Certificate.{IsAccepted};
ghost use Rattle.sw_machine.specs.DeadlockFreedom.{IsFree};
ghost use Rattle.sw_machine.specs.Model.{network_of};
ghost use Rattle.sw_cert.specs.Contents.{certificate_of};
ghost use Rattle.sw_cert.specs.Refusals.{refusal_of};

use crate::Certificate;
use crate::counts::is_of_the_network;
use crate::parallel::CheckWorkers;
use crate::passed::Passed;
use crate::refusal::Refusal;
use crate::targets::not_rising_at_targets;
use sw_config::Network;

/// The first reason to refuse the certificate.
fn refusal_of<W: CheckWorkers>(
    workers: &W,
    network: &Network,
    certificate: &Certificate,
) -> Option<Refusal>
    ensures { result ≡ refusal_of network.now certificate.now }
{
    if !is_of_the_network(network, certificate) {
        return Some(Refusal::WrongCount);
    }
    let closed = workers.refusal_of_flows(network, certificate);
    if closed.is_some() {
        return closed;
    }
    let rising = workers.not_rising_along_flows(network, certificate);
    if rising.is_some() {
        return rising;
    }
    not_rising_at_targets(network, certificate.numbers())
}

/// Checks a certificate for a network: it passes exactly where it is accepted, and then the network can't lock up, over every run that
/// keeps the limits on unanswered commands, and so over every run where it has none.
///
/// # Errors
///
/// The first reason to refuse it: counts, then flow by flow its start and its places, and then the numbers along the flows and at
/// the nodes where what comes may have to wait for a reply.
///
/// The workers share the work, flow by flow. It takes no memory that it cannot do without: where no thread can be started, the one
/// that there is does the work, and no answer tells of want of memory. The time is linear in the places and in what follows them, but
/// for a search of a flow's list for each that does not stand behind the one found last.
pub fn check<'a, W: CheckWorkers>(
    workers: &W,
    network: &'a Network,
    certificate: &Certificate,
) -> Result<Passed<'a>, Refusal>
    ensures exact { MatchResult result (λ passed. (passed ≡ network.entry.now) × (refusal_of network.entry.now certificate.now ≡ None)) (λ refusal. refusal_of network.entry.now certificate.now ≡ Some refusal) }
    ensures accepted { MatchResult result (λ _. IsAccepted (network_of network.entry.now) (certificate_of certificate.now)) (λ _. IsAccepted (network_of network.entry.now) (certificate_of certificate.now) → ⊥) }
    ensures deadlock_free { IfOk result (λ passed. IsFree (network_of network.entry.now) (certificate_of certificate.now)) }
{
    // Names the network, which is valid by its type.
    let _flows = network.flows();
    match refusal_of(workers, network, certificate) {
        Some(refusal) => Err(refusal),
        None => Ok(Passed::new(network, certificate)),
    }
}
