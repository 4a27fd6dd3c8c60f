//! Whether the numbers of a certificate rise at the nodes that may make others wait.
ghost use Rattle.std.specs.Prelude.{◌≡◌, ◌<◌, length, IfSome};
ghost use Rattle.sw_cert.specs.Refusals.{least_falling, not_rising_at_targets};
ghost use Rattle.sw_cert.specs.Ends.{falling_end};

use crate::refusal::Refusal;
use crate::rising::{is_not_above, lesser};
use sw_config::{Flow, Network};

/// The node where the flow ends, if what comes there may have to wait for a reply and the numbers do not rise.
fn falling_end(network: &Network, numbers: &[u16], flow: &Flow) -> Option<u16>
    requires { flow.now.to < length network.now.nodes }
    ensures end { result ≡ falling_end network.now numbers.now flow.now }
    ensures within { IfSome result (λ n. n < length network.now.nodes) }
{
    let node = flow.to();
    if !network.may_make_wait(node) {
        return None;
    }
    let topology = network.topology();
    if is_not_above(numbers, topology.into(node), topology.out(node)) {
        Some(node)
    } else {
        None
    }
}

fn least_falling(network: &Network, numbers: &[u16]) -> Option<u16>
    ensures least { result ≡ least_falling network.now numbers.now }
    ensures within { IfSome result (λ n. n < length network.now.nodes) }
{
    let mut found = None;
    for number in 0..network.flows() {
        let entry = network.flow(number);
        let end = falling_end(network, numbers, entry);
        found = lesser(found, end);
    }
    found
}

/// The refusal for the least node at which what comes may have to wait for a reply and the numbers do not rise.
pub(crate) fn not_rising_at_targets(network: &Network, numbers: &[u16]) -> Option<Refusal>
    ensures { result ≡ not_rising_at_targets network.now numbers.now }
{
    match least_falling(network, numbers) {
        Some(node) => {
            let topology = network.topology();
            Some(Refusal::NotRising(topology.into(node), topology.out(node)))
        }
        None => None,
    }
}
